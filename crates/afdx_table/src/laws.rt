//! Laws over the definitions.

ghost use Rattle.afdx_table.specs.WellFormed.{TablesAreWellFormed};
ghost use Rattle.afdx_table.specs.Inner.Distinct.{PortsAreDistinct};
ghost use Rattle.afdx_table.specs.Inner.Holds.{TablesHoldTheirTexts};
ghost use Rattle.afdx_table.specs.Inner.Found.{LinksAreFound, LinksAreAtTheirPlaces, PortsAreFound};

/// Proves that every table of a text is well formed.
pub fn tables_are_well_formed()
    ensures { TablesAreWellFormed }
{}

/// Proves that every table of a text has the constant field, the latency, the ports and the links that are under their keys in
/// the text, each field by its own key, and nothing else.
pub fn tables_hold_their_texts()
    ensures { TablesHoldTheirTexts }
{}

/// Proves that each link of a well-formed table is under its number, and that what is under a number is a link of the table with
/// that number.
pub fn links_are_found()
    ensures { LinksAreFound }
{}

/// Proves that the link at the place of a number is the link of that number, and that there is no link if there is no place.
pub fn links_are_at_their_places()
    ensures { LinksAreAtTheirPlaces }
{}

/// Proves that each port of a well-formed table is under its number.
pub fn ports_are_found()
    ensures { PortsAreFound }
{}

/// Proves that ports whose numbers rise have different numbers.
pub fn ports_are_distinct()
    ensures { PortsAreDistinct }
{}
