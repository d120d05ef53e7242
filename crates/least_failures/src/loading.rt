//! Reads and parses what the words ask for.

ghost use Rattle.std.specs.Prelude.{◌≡◌, ◌≤◌, Ok, Err, Some, IfOk, IfErr, IfSome, length, map, string_bytes};
ghost use Rattle.asked_files.specs.Words.{asking};
ghost use Rattle.least_failures.specs.Due as due;
ghost use Rattle.least_failures.specs.Loading.{WorksBy};
ghost use Rattle.least_failures.specs.Words.{asked_of};
ghost use Rattle.mw_load.specs.Loading.{StopsAt};
ghost use Rattle.mw_outside.specs.Contents.{TellsOnly};
ghost use Rattle.mw_outside.specs.Faults.{Rose};
ghost use Rattle.run_inputs.specs.Due.{answering, refused};
ghost use Rattle.run_inputs.specs.Loading.{IsBudget, OnStop, UnlessReadFault};

use asked_files::{Asked, load_network, read_asked_words};
use mw_outside::Files;
use mw_text::List;
use net_model::Net;
use question_lang::{MOST_QUESTIONS, Question};
use run_inputs::Stop;
use run_inputs::load::{Loaded, MOST_BYTES, read_asked, read_text};
use std::alloc::Global;

// The questions of the file of that name about the network.
fn load_questions<F: Files>(
    alloc: Global,
    files: &mut F,
    name: &str,
    net: &Net,
) -> Result<List<Question>, Stop>
    ensures kept { F.contents files.new ≡ F.contents files.old }
    ensures ok { IfOk result (λ questions. IfSome (F.contents files.old) (λ contents.
        due.questions_in contents name.now net.now.files ≡ Ok questions)) }
    ensures few { IfOk result (λ questions. length questions ≤ MOST_QUESTIONS) }
    ensures quiet { UnlessReadFault result (F.faults files.new ≡ F.faults files.old) }
    ensures name_stays { UnlessReadFault result (F.last_failed files.new ≡ F.last_failed files.old) }
    ensures stop { IfErr result (λ stop. OnStop stop
        (λ line. IfSome (F.contents files.old) (λ contents.
        due.questions_in contents name.now net.now.files ≡ Err (refused line)))
        (Rose (F.faults files.old) (F.faults files.new) × TellsOnly name.now (F.last_failed files.new))) }
{
    let text = read_text(alloc, files, name, MOST_BYTES)?;
    read_asked(alloc, &text, net)
}

// The network and the questions about it.
fn load_asked<F: Files>(alloc: Global, files: &mut F, asked: &Asked) -> Result<Loaded, Stop>
    ensures kept { F.contents files.new ≡ F.contents files.old }
    ensures ok { IfOk result (λ loaded. IfSome (F.contents files.old) (λ contents.
        due.files_due contents (asking asked.now) ≡ Ok (answering loaded.net.files loaded.questions loaded.budget))) }
    ensures budget { IfOk result (λ loaded. loaded.budget ≡ asked.now.budget) }
    ensures few { IfOk result (λ loaded. length loaded.questions ≤ MOST_QUESTIONS) }
    ensures quiet { UnlessReadFault result (F.faults files.new ≡ F.faults files.old) }
    ensures name_stays { UnlessReadFault result (F.last_failed files.new ≡ F.last_failed files.old) }
    ensures stop { IfErr result (λ stop. OnStop stop
        (λ line. IfSome (F.contents files.old) (λ contents. due.files_due contents (asking asked.now) ≡ Err (refused line)))
        (Rose (F.faults files.old) (F.faults files.new)
        × StopsAt (F.contents files.old) (due.order_by (Some (asking asked.now))) (F.last_failed files.new))) }
{
    let net = load_network(alloc, files, asked.configs.as_slice())?;
    let questions = load_questions(alloc, files, asked.own.as_str(), &net)?;
    Ok(Loaded {
        net,
        questions,
        budget: asked.budget,
    })
}

// What is asked for, read and parsed.
fn asked_work<F: Files>(alloc: Global, files: &mut F, asked: &Asked) -> Result<Option<Loaded>, Stop>
    requires { IsBudget asked.now.budget }
    ensures kept { F.contents files.new ≡ F.contents files.old }
    ensures so { WorksBy (F.contents files.old) (Some (asking asked.now)) (record {
      faults = F.faults files.old;
      faults_now = F.faults files.new;
      last = F.last_failed files.old;
      last_now = F.last_failed files.new;
    }) result }
{
    match load_asked(alloc, files, asked) {
        Ok(loaded) => Ok(Some(loaded)),
        Err(stop) => Err(stop),
    }
}

/// What the words ask for, read and parsed: the configurations are read, parsed and built, and then the questions are read
/// and parsed. None where the words are not the command.
pub fn work_of<F: Files>(
    alloc: Global,
    files: &mut F,
    words: &[String],
) -> Result<Option<Loaded>, Stop>
    ensures kept { F.contents files.new ≡ F.contents files.old }
    ensures so { WorksBy (F.contents files.old) (asked_of (map string_bytes words.now)) (record {
      faults = F.faults files.old;
      faults_now = F.faults files.new;
      last = F.last_failed files.old;
      last_now = F.last_failed files.new;
    }) result }
{
    match read_asked_words(alloc, "least", words) {
        Ok(Some(asked)) => asked_work(alloc, files, &asked),
        Ok(None) => Ok(None),
        Err(_) => Err(Stop::Memory),
    }
}
