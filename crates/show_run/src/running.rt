//! The whole run of the program.

ghost use Rattle.std.specs.Prelude.{◌≡◌, ◌≢◌, ◌++◌, ◌∷◌, [], IfOk, IfErr, map, string_bytes};
ghost use Rattle.mw_outside.specs.Faults.{Rose};
ghost use Rattle.run_inputs.specs.Loading.{OnStop, UnlessReadFault};
ghost use Rattle.run_inputs.specs.Order.{StopsAt};
ghost use Rattle.show_run.specs.Runs as runs;

use crate::telling::{Printed, tell};
use crate::texts::{Texts, parse_all, read_all};
use mw_outside::{Files, Sink};
use mw_text::{list_of, same_bytes};
use run_answers::Status;
use run_inputs::Stop;
use std::alloc::{AllocError, Global};

const USAGE: &[u8] = b"usage: mw_show [--dot] PRINTED QUESTIONS CONFIG...\n";

/// What is printed of texts: what is said of the counterexamples, or the first refusal.
fn print_texts(alloc: Global, drawn: bool, all: Texts) -> Result<Printed, Stop>
    requires { runs.FitTexts all.configs all.asked all.told }
    ensures ok { IfOk result (λ printed. runs.IsOfTexts drawn all.configs all.asked all.told printed.text printed.status) }
    ensures stop { IfErr result (λ stop. OnStop stop (λ line. ⊥) ⊥) }
{
    let Texts {
        configs,
        asked,
        told,
    } = all;
    match parse_all(alloc, configs.as_slice(), &asked, told) {
        Ok(told) => Ok(tell(alloc, configs.as_slice(), drawn, &told)?),
        Err(Stop::Refused(line)) => Ok(Printed {
            text: line,
            status: Status::Refused,
        }),
        Err(stop) => Err(stop),
    }
}

/// What is printed for files of these names.
fn print_files<F: Files>(
    alloc: Global,
    files: &mut F,
    drawn: bool,
    printed: &str,
    questions: &str,
    names: &[&str],
) -> Result<Printed, Stop>
    ensures kept { F.contents files.new ≡ F.contents files.old }
    ensures ok { IfOk result (λ it. runs.IsOfFiles drawn (F.contents files.old) printed.now questions.now
        (map (λ s. s.now) names.now) it.text it.status) }
    ensures quiet { UnlessReadFault result (F.faults files.new ≡ F.faults files.old) }
    ensures name_stays { UnlessReadFault result (F.last_failed files.new ≡ F.last_failed files.old) }
    ensures stop { IfErr result (λ stop. OnStop stop (λ line. ⊥) (Rose (F.faults files.old) (F.faults files.new)
        × StopsAt (F.contents files.old) (map (λ s. s.now) names.now ++ questions.now ∷ printed.now ∷ []) (F.last_failed files.new))) }
{
    match read_all(alloc, files, printed, questions, names) {
        Ok(all) => print_texts(alloc, drawn, all),
        Err(Stop::Refused(line)) => Ok(Printed {
            text: line,
            status: Status::Refused,
        }),
        Err(stop) => Err(stop),
    }
}

fn names_of(alloc: Global, words: &[String]) -> Result<Vec<&str>, AllocError>
    ensures { IfOk result (λ names. map (λ s. s.now) names.items ≡ map string_bytes words.now) }
{
    let mut names = Vec::new(alloc);
    for word in words {
        names.push(word.as_str())?;
    }
    Ok(names)
}

fn print_usage(alloc: Global) -> Result<Printed, Stop>
    ensures ok { IfOk result (λ it. (it.text ≡ runs.usage_text) × (it.status ≡ Status.Usage)) }
    ensures stop { IfErr result (λ stop. OnStop stop (λ line. ⊥) ⊥) }
{
    Ok(Printed {
        text: list_of(alloc, USAGE)?,
        status: Status::Usage,
    })
}

/// What is printed for the words of a command: what was printed, the questions, and configurations.
fn print_named<F: Files>(
    alloc: Global,
    files: &mut F,
    drawn: bool,
    printed: &str,
    questions: &str,
    words: &[String],
) -> Result<Printed, Stop>
    ensures kept { F.contents files.new ≡ F.contents files.old }
    ensures ok { IfOk result (λ it. runs.IsOfFiles drawn (F.contents files.old) printed.now questions.now
        (map string_bytes words.now) it.text it.status) }
    ensures quiet { UnlessReadFault result (F.faults files.new ≡ F.faults files.old) }
    ensures name_stays { UnlessReadFault result (F.last_failed files.new ≡ F.last_failed files.old) }
    ensures stop { IfErr result (λ stop. OnStop stop (λ line. ⊥) (Rose (F.faults files.old) (F.faults files.new)
        × StopsAt (F.contents files.old) (map string_bytes words.now ++ questions.now ∷ printed.now ∷ []) (F.last_failed files.new))) }
{
    let names = names_of(alloc, words)?;
    print_files(alloc, files, drawn, printed, questions, names.as_slice())
}

/// What is printed for words that name files.
fn print_by<F: Files>(
    alloc: Global,
    files: &mut F,
    drawn: bool,
    words: &[String],
) -> Result<Printed, Stop>
    ensures kept { F.contents files.new ≡ F.contents files.old }
    ensures ok { IfOk result (λ it. runs.IsDueBy drawn (F.contents files.old) (map string_bytes words.now) it.text it.status) }
    ensures quiet { UnlessReadFault result (F.faults files.new ≡ F.faults files.old) }
    ensures name_stays { UnlessReadFault result (F.last_failed files.new ≡ F.last_failed files.old) }
    ensures stop { IfErr result (λ stop. OnStop stop (λ line. ⊥) (Rose (F.faults files.old) (F.faults files.new)
        × StopsAt (F.contents files.old) (runs.order_by (map string_bytes words.now)) (F.last_failed files.new))) }
{
    match words {
        [printed, questions, _, ..] => print_named(
            alloc,
            files,
            drawn,
            printed.as_str(),
            questions.as_str(),
            &words[2..],
        ),
        _ => print_usage(alloc),
    }
}

/// Whether the first word asks for a graph.
fn is_drawn(words: &[String]) -> bool
    ensures { result ≡ runs.is_drawn (map string_bytes words.now) }
{
    match words {
        [] => false,
        [word, ..] => same_bytes(word.as_bytes(), b"--dot"),
    }
}

/// The words after that.
fn named(words: &[String]) -> &[String]
    ensures { map string_bytes result.now ≡ runs.named (map string_bytes words.now) }
{
    if is_drawn(words) { &words[1..] } else { words }
}

/// What is printed for these words.
fn print_words<F: Files>(alloc: Global, files: &mut F, words: &[String]) -> Result<Printed, Stop>
    ensures kept { F.contents files.new ≡ F.contents files.old }
    ensures ok { IfOk result (λ it. runs.IsDue (F.contents files.old) (map string_bytes words.now) it.text it.status) }
    ensures quiet { UnlessReadFault result (F.faults files.new ≡ F.faults files.old) }
    ensures name_stays { UnlessReadFault result (F.last_failed files.new ≡ F.last_failed files.old) }
    ensures stop { IfErr result (λ stop. OnStop stop (λ line. ⊥) (Rose (F.faults files.old) (F.faults files.new)
        × StopsAt (F.contents files.old) (runs.in_order (map string_bytes words.now)) (F.last_failed files.new))) }
{
    print_by(alloc, files, is_drawn(words), named(words))
}

/// The whole run: reads the files that the words name, and says of each counterexample in what `verify` printed what a
/// person wants to know of it, where it is true, or else what `replay` answers. A file that is refused is refused as
/// `replay` refuses it.
pub fn run<F: Files, O: Sink>(alloc: Global, words: &[String], files: &mut F, out: &mut O) -> Status
    // With 0, 1, 3 or 4 the text that is due stands: with 0 and 1 counterexamples were read, and with 0 each is true.
    ensures answered { result ≢ Status.ReadFault → result ≢ Status.WriteFault → result ≢ Status.Memory →
        runs.Due (F.contents files.old) (map string_bytes words.now) (O.taken out.old) (O.taken out.new) result }

    // With 5 a read of a file that the words name failed in this call, and nothing is printed. With any other status no
    // read failed.
    ensures read_fault { result ≡ Status.ReadFault → Rose (F.faults files.old) (F.faults files.new)
        × StopsAt (F.contents files.old) (runs.in_order (map string_bytes words.now)) (F.last_failed files.new)
        × (O.taken out.new ≡ O.taken out.old) }
    ensures reads { result ≢ Status.ReadFault → F.faults files.new ≡ F.faults files.old }

    // With 6 a write failed in this call, and a front of the text that is due stands. With any other status none did.
    ensures write_fault { result ≡ Status.WriteFault → Rose (O.faults out.old) (O.faults out.new)
        × runs.Front (F.contents files.old) (map string_bytes words.now) (O.taken out.old) (O.taken out.new) }
    ensures writes { result ≢ Status.WriteFault → O.faults out.new ≡ O.faults out.old }
    ensures kept { F.contents files.new ≡ F.contents files.old }
{
    match print_words(alloc, files, words) {
        Ok(printed) => match out.write(printed.text.as_slice()) {
            Ok(()) => printed.status,
            Err(_) => Status::WriteFault,
        },
        Err(Stop::Refused(_)) | Err(Stop::Memory) => Status::Memory,
        Err(Stop::ReadFault) => Status::ReadFault,
    }
}
