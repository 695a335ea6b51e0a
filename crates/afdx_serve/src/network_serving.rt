//! The commands of networks.

ghost use Rattle.std.specs.Prelude.{MatchResult};
ghost use Rattle.afdx_serve.specs.Serving.{world, PerformsNetwork, FailsToPerformNetwork};

use crate::network_check::network_check;
use crate::network_jitter::network_jitter;
use crate::network_measure::network_measure;
use crate::network_run::network_run;
use crate::network_size::network_size;
use crate::network_survey::network_survey;
use crate::network_trace::network_trace;
use afdx_arguments::NetworkRequest;
use afdx_folder::Folder;
use afdx_messages::Failure;
use std::alloc::Global;
use std::io::Write;

/// Does what is asked for.
pub(crate) fn perform_network<O: Write, F: Folder>(
    alloc: Global,
    request: &NetworkRequest<'_>,
    out: &mut O,
    folder: &mut F,
) -> Result<(), Failure>
    ensures { MatchResult result
        (λ _. PerformsNetwork request.now
        (world (O.contents out.old) (F.files folder.old) (F.failed folder.old)) (world (O.contents out.new) (F.files folder.new) (F.failed folder.new)))
        (λ f. FailsToPerformNetwork f request.now
        (world (O.contents out.old) (F.files folder.old) (F.failed folder.old)) (world (O.contents out.new) (F.files folder.new) (F.failed folder.new))) }
{
    match request {
        NetworkRequest::Check(path, form) => network_check(alloc, path, *form, out, folder),
        NetworkRequest::Size(path, form) => network_size(alloc, path, *form, out, folder),
        NetworkRequest::Jitter(path, form) => network_jitter(alloc, path, *form, out, folder),
        NetworkRequest::Run(paths, form) => network_run(alloc, paths, *form, out, folder),
        NetworkRequest::Measure(inputs, form) => network_measure(alloc, inputs, *form, out, folder),
        NetworkRequest::Survey(inputs, form) => network_survey(alloc, inputs, *form, out, folder),
        NetworkRequest::Trace(paths) => network_trace(alloc, paths, folder),
    }
}
