//! Values of AVPs with their flags: one, or several of one code.
ghost use Rattle.std.specs.Prelude.{◌≡◌, [], ◌∷◌, ◌++◌, OnOk, OnErr};

use std::alloc::{AllocError, Global};
use std::marker::Model;

/// The value of an AVP, with the flags M and P that it was read with or is to be written with (RFC 6733 section 4.1).
pub struct TypedAvp<T> {
    pub mandatory: bool,
    pub protected: bool,
    pub value: T,
}

impl<T: Drop> Drop for TypedAvp<T> {
    fn drop(self) {
        let TypedAvp {
            mandatory: _,
            protected: _,
            value,
        } = self;
    }
}

/// The values of AVPs of one code, in order. A contract sees them as a list.
pub struct TypedAvps<T> {
    avps: Vec<TypedAvp<T>>,
}

impl<T: Drop> Drop for TypedAvps<T> {
    fn drop(self) {
        let TypedAvps { avps } = self;
    }
}

impl<T> Model for TypedAvps<T> {
    ghost use Rattle.std.specs.Prelude.{List};
    ghost use Rattle.dia_command.specs.declared.typed.TypedAvp.{TypedAvp};

    ghost Value = { List (TypedAvp T) };

    ghost view = { λ l. l.avps.items };
}

impl<T: Drop> TypedAvps<T> {
    /// No value.
    pub fn new(alloc: Global) -> TypedAvps<T>
        ensures { result ≡ [] }
    {
        TypedAvps {
            avps: Vec::new(alloc),
        }
    }

    /// The values.
    pub fn as_slice(&self) -> &[TypedAvp<T>]
        ensures { result.now ≡ self.now }
    {
        self.avps.as_slice()
    }

    /// Adds a value at the end.
    pub fn push(&mut self, avp: TypedAvp<T>) -> Result<(), AllocError>
        ensures ok { OnOk result (self.new ≡ self.old ++ avp ∷ []) }
        ensures err { OnErr result (self.new ≡ self.old) }
    {
        self.avps.push(avp)?;
        Ok(())
    }
}
