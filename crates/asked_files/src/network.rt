//! Reads, parses and builds the network that the words name.

ghost use Rattle.std.specs.Prelude.{◌≡◌, Ok, Err, IfOk, IfErr, IfSome, map, string_bytes};
ghost use Rattle.asked_files.specs.Network as due;
ghost use Rattle.mw_load.specs.Loading.{StopsAt};
ghost use Rattle.mw_outside.specs.Faults.{Rose};
ghost use Rattle.net_parts.specs.Tracked.{tracked_of};
ghost use Rattle.run_inputs.specs.Due.{refused};
ghost use Rattle.run_inputs.specs.Loading.{OnStop, UnlessReadFault};

use mw_load::{LoadRefused, load, refusal_text};
use mw_outside::Files;
use net_model::Net;
use run_inputs::Stop;
use run_inputs::load::stop_with;
use std::alloc::Global;

fn name_at(names: &[String], at: u64) -> &str
    ensures { result.now ≡ due.name_at (map string_bytes names.entry.now) at }
{
    match names.get(at as usize) {
        Some(name) => name.as_str(),
        None => "",
    }
}

/// One of the files of these names is refused: that of this place, at this line, for a cause with this number and these
/// words.
pub fn stop_at(
    alloc: Global,
    names: &[String],
    name: u64,
    line: u32,
    number: u32,
    cause: &[u8],
) -> Stop
    ensures { OnStop result (λ printed. printed ≡ due.refusal_line (map string_bytes names.now)
        (record { name = name; line = line; number = number; cause = cause.now })) ⊥ }
{
    let name = name_at(names, name);
    stop_with(refusal_text(alloc, name, line, number, cause))
}

/// The network of the configurations of these names: they are read in their order, parsed in it, and their network is built,
/// which tracks what they name.
///
/// # Errors
/// The line of the first refusal; a read of one of the files that failed; want of memory.
pub fn load_network<F: Files>(alloc: Global, files: &mut F, names: &[String]) -> Result<Net, Stop>
    ensures kept { F.contents files.new ≡ F.contents files.old }
    ensures ok { IfOk result (λ net. IfSome (F.contents files.old) (λ contents.
        due.network_of contents (map string_bytes names.now) ≡ Ok net.files)) }
    ensures tracks { IfOk result (λ net. net.tracked ≡ tracked_of net.files) }
    ensures quiet { UnlessReadFault result (F.faults files.new ≡ F.faults files.old) }
    ensures name_stays { UnlessReadFault result (F.last_failed files.new ≡ F.last_failed files.old) }
    ensures stop { IfErr result (λ stop. OnStop stop
        (λ line. IfSome (F.contents files.old) (λ contents.
        due.network_of contents (map string_bytes names.now) ≡ Err (refused line)))
        (Rose (F.faults files.old) (F.faults files.new)
        × StopsAt (F.contents files.old) (map string_bytes names.now) (F.last_failed files.new))) }
{
    match load(alloc, files, names) {
        Ok(net) => Ok(net),
        Err(LoadRefused::Fault) => Err(Stop::ReadFault),
        Err(
            LoadRefused::Refused {
                name,
                line,
                number,
                cause,
            },
        ) => Err(stop_at(alloc, names, name, line, number, cause.as_slice())),
        Err(LoadRefused::Memory) => Err(Stop::Memory),
    }
}
