//! The command `network size`.

ghost use Rattle.std.specs.Prelude.{map, string_bytes, IfOk, MatchResult};
ghost use Rattle.afdx_serve.specs.Networks.{names_of};
ghost use Rattle.afdx_serve.specs.Sizes.{AreSizesFrom, AreSizesOfAll};
ghost use Rattle.afdx_serve.specs.Serving.{world, SizesNetwork, FailsToSizeNetwork};

use crate::network_get::{get_network, names_of};
use crate::size::{size_heading, sizes_text};
use afdx_csv::Form;
use afdx_folder::{Folder, write_bytes};
use afdx_messages::Failure;
use afdx_network_report::name_of;
use afdx_table::Table;
use std::alloc::{AllocError, Global};
use std::io::Write;

/// Returns what is written of the ports of all switches, which have these names and these tables. O(ports and links).
fn network_sizes(
    alloc: Global,
    form: Form,
    names: &[String],
    tables: &[Table],
) -> Result<String, AllocError>
    ensures { IfOk result (λ text. AreSizesFrom form 0 (map string_bytes names.now) tables.now (string_bytes text)) }
{
    let mut text = String::new(alloc);
    for (switch, table) in tables.iter().enumerate() {
        let lines = sizes_text(alloc, form, Some(name_of(names, switch)), table)?;
        text.push_str(&lines)?;
    }
    Ok(text)
}

/// Returns what is written of all switches, which have these names and these tables.
fn all_sizes(
    alloc: Global,
    form: Form,
    names: &[String],
    tables: &[Table],
) -> Result<String, AllocError>
    ensures { IfOk result (λ text. AreSizesOfAll form (map string_bytes names.now) tables.now (string_bytes text)) }
{
    let mut text = size_heading(alloc, form, Some(""))?;
    let lines = network_sizes(alloc, form, names, tables)?;
    text.push_str(&lines)?;
    Ok(text)
}

/// Writes for each switch of a file's network what `size` writes of its table, whether it fits or not; each line names its switch at its
/// end, each row in its first column.
///
/// # Errors
///
/// What is met first: `Get`; `Network`, in the order of the network file, its tables, the ports of its wires; `Write`; `Memory` if
/// memory ran out.
pub(crate) fn network_size<O: Write, F: Folder>(
    alloc: Global,
    path: &str,
    form: Form,
    out: &mut O,
    folder: &mut F,
) -> Result<(), Failure>
    ensures { MatchResult result
        (λ _. SizesNetwork form path.now
        (world (O.contents out.old) (F.files folder.old) (F.failed folder.old)) (world (O.contents out.new) (F.files folder.new) (F.failed folder.new)))
        (λ f. FailsToSizeNetwork f form path.now
        (world (O.contents out.old) (F.files folder.old) (F.failed folder.old)) (world (O.contents out.new) (F.files folder.new) (F.failed folder.new))) }
{
    let network = get_network(alloc, folder, path)?;
    let names = names_of(alloc, &network.layout().switches)?;
    let text = all_sizes(alloc, form, &names, network.tables())?;
    write_bytes(out, text.as_bytes())?;
    Ok(())
}
