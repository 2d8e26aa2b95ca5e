//! Callbacks stored with their laws.
ghost use Rattle.std.specs.Prelude.{◌≡◌, Bool};
ghost use Rattle.tab_law.specs.Acts.{Permits, Permits-prop};
ghost use Rattle.tab_law.specs.Guards.{says_yes};
ghost use Rattle.tab_law.specs.Scenes.{IsScene};

use tab_law::{ActLaw, Acted, GuardLaw, Scene};

/// Answers whether a guard says yes on a scene.
pub type Ask = Box<dyn Fn(&Scene) -> bool + Send>;

/// Writes what an action does on a scene into room; what stood there is gone.
pub type Do = Box<dyn Fn(&Scene, &mut Acted) + Send>;

/// A guard's callback, with the law that fixes its answers.
#[derive(Drop)]
pub struct StoredGuard {
    pub law: GuardLaw,
    ask: Ask,
    ghost callable: { IsAlwaysCallable ask },
    ghost answers: { (scene : _) (yes : Bool) → IsScene scene.now → post ask scene yes → yes ≡ says_yes law scene.now },
}

impl StoredGuard {
    /// Stores a callback. Condition: on every scene it may be called, and it answers what the law says.
    pub fn new(law: GuardLaw, ask: Ask) -> StoredGuard
        requires callable { IsAlwaysCallable ask }
        requires answers { (scene : _) (yes : Bool) → IsScene scene.now → post ask scene yes
            → yes ≡ says_yes law scene.now }
        ensures law { result.law ≡ law }
        ensures ask { result.ask ≡ ask }
    {
        StoredGuard { law, ask }
    }

    /// Asks the callback.
    pub fn ask(&self, scene: &Scene) -> bool
        ensures { result ≡ says_yes self.now.law scene.now }
    {
        scene.known();
        (self.ask)(scene)
    }
}

/// An action's callback, with the law that permits its answers.
#[derive(Drop)]
pub struct StoredAct {
    pub law: ActLaw,
    act: Do,
    ghost callable: { IsAlwaysCallable act },
    ghost answers: { (scene room left : _) → IsScene scene.now → post act scene room tt left
        → Permits law scene.now left.now.regs left.now.deeds } by { Prim.hlevel Permits-prop },
}

impl StoredAct {
    /// Stores a callback. Condition: on every scene and room it may be called, and what it leaves in the room is an
    /// answer that the law permits.
    pub fn new(law: ActLaw, act: Do) -> StoredAct
        requires callable { IsAlwaysCallable act }
        requires answers { (scene room left : _) → IsScene scene.now → post act scene room tt left
            → Permits law scene.now left.now.regs left.now.deeds }
        ensures law { result.law ≡ law }
        ensures act { result.act ≡ act }
    {
        StoredAct { law, act }
    }

    /// Runs the callback, which writes its answer into room; what stood there is gone.
    pub fn act(&self, scene: &Scene, room: &mut Acted)
        ensures { Permits self.now.law scene.now room.new.regs room.new.deeds }
    {
        scene.known();
        (self.act)(scene, room);
    }
}
