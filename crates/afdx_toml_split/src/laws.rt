//! Laws over the definitions: functions that do nothing, whose contracts are the laws.

ghost use Rattle.afdx_toml_split.specs.Laws.{LinksAreReadApart};

/// Proves that what the text before the first link says, and what each link says by itself, is what the whole text says. This
/// holds if the former has no `link`, and the latter have neither tables nor arrays that end in one, as headers would leave them.
pub fn links_are_read_apart()
    ensures { LinksAreReadApart }
{}
