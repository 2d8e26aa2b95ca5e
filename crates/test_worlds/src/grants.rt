//! What callbacks answer: as their laws permit.

ghost use Rattle.tab_law.specs.Acts.{Permits};

use tab_law::{ActLaw, Acted, Scene, emitted, high_into, permits};

/// Writes the answer that a law permits with 1 unit granted, if it permits one, else with as many as it permits.
fn grants_one(law: &ActLaw, scene: &Scene, room: &mut Acted)
    ensures { Permits law.now scene.now room.new.regs room.new.deeds }
{
    high_into(law, scene, room);
    let mut regs = room.regs;
    regs[3] = 1;
    let deeds = emitted(law, scene, &regs);
    if permits(law, scene, &regs, deeds.as_slice()) {
        room.regs = regs;
        room.deeds = deeds;
    }
}

/// Writes what a callback answers by its law: as many units as it permits, or, if sparing, 1 where it may.
pub fn answer(law: &ActLaw, scene: &Scene, is_sparing: bool, room: &mut Acted)
    ensures { Permits law.now scene.now room.new.regs room.new.deeds }
{
    if is_sparing {
        grants_one(law, scene, room);
    } else {
        high_into(law, scene, room);
    }
}
