//! What is said of counterexamples.

ghost use Rattle.std.specs.Prelude.{◌≡◌, ◌&&◌, ◌++◌, IfOk, OnOk};
ghost use Rattle.run_inputs.specs.Loading.{IsAdmitted};
ghost use Rattle.show_run.specs.Said as said;

use crate::texts::Told;
use cex_json::Counterexample;
use cex_story::{Scene, drawing, story};
use mw_text::{List, list_of};
use net_model::Net;
use question_lang::Question;
use run_answers::Status;
use run_answers::replaying::replay_line;
use run_inputs::text::Text;
use std::alloc::{AllocError, Global};

/// What is said, and whether what it is said of is true.
#[derive(Drop)]
pub struct Said {
    pub text: List<u8>,
    pub yes: bool,
}

/// How a true counterexample is shown: in words, or drawn as a graph.
fn shown(alloc: Global, scene: &Scene<'_>, drawn: bool) -> Result<List<u8>, AllocError>
    ensures { IfOk result (said.IsShown drawn scene.now.net.now.files scene.now.cex.now.walk) }
{
    if drawn {
        return drawing(alloc, scene);
    }
    story(alloc, scene)
}

/// What is said of a counterexample.
#[tactic(auto, using(crate::proofs::Saying::said_no, crate::proofs::Saying::said_yes))]
fn say(
    alloc: Global,
    net: &Net,
    names: &[&[u8]],
    questions: &[Question],
    drawn: bool,
    cex: &Counterexample,
) -> Result<Said, AllocError>
    requires { IsAdmitted net.now.files questions.now cex.now }
    ensures { IfOk result (λ it. said.IsSaid drawn net.now.files questions.now cex.now it.text it.yes) }
{
    let question = &questions[cex.question as usize];
    let line = replay_line(alloc, net, questions, cex)?;
    if !line.yes {
        return Ok(Said {
            text: line.text,
            yes: false,
        });
    }
    let scene = Scene {
        net,
        names,
        question,
        cex,
    };
    let text = shown(alloc, &scene, drawn)?;
    Ok(Said { text, yes: true })
}

/// Whether both are so.
fn both(a: bool, b: bool) -> bool
    ensures { result ≡ (a && b) }
{
    a && b
}

fn put_text(text: &mut List<u8>, more: &[u8]) -> Result<(), AllocError>
    ensures { OnOk result (text.new ≡ text.old ++ more.now) }
{
    text.items.extend_from_slice(more)?;
    Ok(())
}

/// Adds what is said of one counterexample more.
#[tactic(auto, using(crate::proofs::Saying::next_is))]
fn say_next(
    all: &mut Said,
    alloc: Global,
    net: &Net,
    names: &[&[u8]],
    questions: &[Question],
    drawn: bool,
    cex: &Counterexample,
) -> Result<(), AllocError>
    requires { IsAdmitted net.now.files questions.now cex.now }
    ensures { OnOk result (said.IsNext drawn net.now.files questions.now cex.now all.old all.new) }
{
    let one = say(alloc, net, names, questions, drawn, cex)?;
    put_text(&mut all.text, one.text.as_slice())?;
    all.yes = both(all.yes, one.yes);
    Ok(())
}

/// What is said of all counterexamples.
#[tactic(auto, using(crate::proofs::Saying::admitted_at, crate::proofs::Saying::goes_none, crate::proofs::Saying::goes_next, crate::proofs::Saying::goes_all))]
fn say_all(
    alloc: Global,
    net: &Net,
    names: &[&[u8]],
    questions: &[Question],
    drawn: bool,
    cexes: &[Counterexample],
) -> Result<Said, AllocError>
    requires { said.AreAdmitted net.now.files questions.now cexes.now }
    ensures { IfOk result (λ it. said.AreSaid drawn net.now.files questions.now cexes.now it.text it.yes) }
{
    let mut all = Said {
        text: List::new(alloc),
        yes: true,
    };
    for cex in cexes {
        say_next(&mut all, alloc, net, names, questions, drawn, cex)?;
    }
    Ok(all)
}

/// The names of the files of texts.
fn names_of(alloc: Global, texts: &[Text]) -> Result<Vec<&[u8]>, AllocError> {
    let mut names = Vec::new(alloc);
    for text in texts {
        names.push(text.name.as_slice())?;
    }
    Ok(names)
}

/// What is printed, and how the run ends.
#[derive(Drop)]
pub struct Printed {
    pub text: List<u8>,
    pub status: Status,
}

/// How a run ends in which all counterexamples are true, or not all.
fn status_of(yes: bool) -> Status
    ensures { result ≡ said.status_of yes }
{
    if yes { Status::Good } else { Status::Bad }
}

/// What is printed of counterexamples over the files of these texts.
#[tactic(auto, using(crate::proofs::Saying::told_none, crate::proofs::Saying::told_some))]
pub fn tell(alloc: Global, texts: &[Text], drawn: bool, told: &Told) -> Result<Printed, AllocError>
    requires { said.AreAdmitted told.now.net.files told.now.questions told.now.cexes }
    ensures { IfOk result (λ printed.
        said.AreTold drawn told.now.net.files told.now.questions told.now.cexes printed.text printed.status) }
{
    let cexes = told.cexes.as_slice();
    if cexes.is_empty() {
        return Ok(Printed {
            text: list_of(alloc, b"nothing is broken\n")?,
            status: Status::Good,
        });
    }
    let names = names_of(alloc, texts)?;
    let all = say_all(
        alloc,
        &told.net,
        names.as_slice(),
        told.questions.as_slice(),
        drawn,
        cexes,
    )?;
    Ok(Printed {
        text: all.text,
        status: status_of(all.yes),
    })
}
