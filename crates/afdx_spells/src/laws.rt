//! Laws over the definitions.

ghost use Rattle.afdx_spells.specs.Inner.Laws.{PartsAreSpells, SpellsAreUnique, SpellsHaveAll};

/// Proves that spells are apart by more than a gap, that in none of them two frames after each other lie further apart than that, and that
/// they have all frames in their order.
pub fn parts_are_spells()
    ensures { PartsAreSpells }
{}

/// Proves that no other lists of frames are such spells.
pub fn spells_are_unique()
    ensures { SpellsAreUnique }
{}

/// Proves that the frames of all spells are as many as were policed.
pub fn spells_have_all()
    ensures { SpellsHaveAll }
{}
