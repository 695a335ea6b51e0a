//! Laws over the definitions: functions that do nothing, whose contracts are the laws.

ghost use Rattle.afdx_load.specs.Inner.Laws.{FactorCoversOverhead, AsksWhatItsAccountGives, EachLinkAsks, SumsTakeEachLinkOnce, LongestShowsLinks, HighLinksLeaveAPart};
ghost use Rattle.afdx_load.specs.Inner.Laws.{CarriesWithoutAFault, AcceptedMeansNoFault, AcceptedKeepsBounds};
ghost use Rattle.afdx_load.specs.Inner.First.{FaultIsTheFirst};
ghost use Rattle.afdx_load.specs.Fits.{AcceptedWhereEachPortFits};

/// Proves that the factor 21/16 of the rate of a link policed by bytes covers the line time of frames exactly from 64 bytes on.
pub fn factor_covers_overhead()
    ensures { FactorCoversOverhead }
{}

/// Proves that what a link asks for is what its account gives: the weight of a unit times its credit, and times its greatest
/// level.
pub fn asks_what_its_account_gives()
    ensures { AsksWhatItsAccountGives }
{}

/// Proves that each link whose greatest size of frames is 64 bytes or more asks for a part of the line.
pub fn each_link_asks()
    ensures { EachLinkAsks }
{}

/// Proves that each sum takes each link that leads to the port once.
pub fn sums_take_each_link_once()
    ensures { SumsTakeEachLinkOnce }
{}

/// Proves that a port has links exactly if its longest frame takes time.
pub fn longest_shows_links()
    ensures { LongestShowsLinks }
{}

/// Proves that, if the line can give the rate and there is a low link, the high links leave a part of the line.
pub fn high_links_leave_a_part()
    ensures { HighLinksLeaveAPart }
{}

/// Proves that a port carries a load exactly if that load breaks no rule there.
pub fn carries_without_a_fault()
    ensures { CarriesWithoutAFault }
{}

/// Proves that a table is accepted exactly if it has no fault.
pub fn accepted_means_no_fault()
    ensures { AcceptedMeansNoFault }
{}

/// Proves that the fault of a table is the one whose rule is broken at its port, while no rule before it is broken there, and no
/// rule at a port of a lower number.
pub fn fault_is_the_first()
    ensures { FaultIsTheFirst }
{}

/// Proves that a table is accepted exactly if each port with links breaks no rule.
pub fn accepted_where_each_port_fits()
    ensures { AcceptedWhereEachPortFits }
{}

/// Proves that in an accepted table each port keeps its two bounds.
pub fn accepted_keeps_bounds()
    ensures { AcceptedKeepsBounds }
{}
