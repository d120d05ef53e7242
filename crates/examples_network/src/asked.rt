//! The answer to an order that asks, beside the one that it says.

use crate::cex::show_again;
use crate::each_word::show_words;
use crate::lists::{show_mapped, show_permitted};
use crate::page::Page;
use crate::protocols::{show_of_network, show_offer, show_preferred, show_survivors};
use crate::reading::{read_outcome, show_asked, show_outcome, show_read};
use crate::rebuilding::show_rebuilt;
use crate::setup::Setup;
use crate::shown_network::{show_network, show_why};
use ios_ast::File;
use net_model::{Net, refuse};

/// Why the routers so far form no network, if they form none.
fn show_refused(out: &mut Page, files: &[File]) {
    match refuse(out.alloc(), files) {
        Ok(None) => out.put(" none"),
        Ok(Some(refused)) => show_why(out, &refused),
        Err(wanting) => out.note(Err(wanting)),
    }
}

/// What is asked of the network.
fn answer_by_network(out: &mut Page, net: &Net, setup: &Setup, word: &str, order: &str) {
    match word {
        "net" => show_network(out, net),
        "cex" => show_again(out, net, setup.questions.as_slice(), order),
        "rebuild" => show_rebuilt(out, net, setup.questions.as_slice(), order),
        _ => show_of_network(out, net, setup, word, order),
    }
}

/// What is asked of the lists and maps of the last router.
fn answer_by_lists(out: &mut Page, setup: &Setup, word: &str, order: &str) {
    let Some(policies) = setup.policies() else {
        return out.put(" no router");
    };
    match word {
        "map" => show_mapped(out, policies, order),
        _ => show_permitted(out, policies, word, order),
    }
}

/// What is asked of the text.
fn answer_by_text(out: &mut Page, setup: &Setup, word: &str, order: &str) {
    match word {
        "read" => show_read(out, setup.text.as_str()),
        "words" => show_words(out, setup, order),
        _ => {
            let end = read_outcome(out.alloc(), setup, order, setup.text.as_str());
            show_outcome(out, end)
        }
    }
}

fn answer(out: &mut Page, setup: &Setup, word: &str, order: &str) {
    match word {
        "read" | "words" | "limit" => answer_by_text(out, setup, word, order),
        "prefix" | "community" | "path" | "packet" | "map" => {
            answer_by_lists(out, setup, word, order)
        }
        "refused" => show_refused(out, setup.files.as_slice()),
        "prefer" => show_preferred(out, order),
        "offer" => show_offer(out, order),
        "survivors" => show_survivors(out, setup.candidates.as_slice(), order),
        _ => match &setup.net {
            Some(net) => answer_by_network(out, net, setup, word, order),
            None => out.put(" no network"),
        },
    }
}

/// The questions of the text.
fn ask_questions(out: &mut Page, setup: &mut Setup) {
    match &setup.net {
        Some(net) => show_asked(out, net, setup.text.as_str(), &mut setup.questions),
        None => out.put(" no network"),
    }
}

/// Whether an answer is as the script says, or the answer where the script says none.
fn conclude(out: &mut Page, name: &str, got: &str, wanted: Option<&str>) {
    match wanted {
        Some(wanted) if got.trim_start() == wanted => out.put("ok "),
        Some(_) => out.put("differs "),
        None => {}
    }
    out.put(name);
    if wanted != Some(got.trim_start()) {
        out.put(":");
        out.put(got);
    }
    out.put("\n")
}

/// `NAME: WORDS = ANSWER`.
pub fn ask(out: &mut Page, setup: &mut Setup, word: &str, rest: &str) {
    let (asked, wanted) = match rest.split_once(" = ") {
        Some((asked, wanted)) => (asked, Some(wanted)),
        None => (rest, None),
    };
    let (name, order) = asked.split_once(": ").unwrap_or((asked, asked));
    let mut got = Page::new(out.alloc());
    match word {
        "asked" => ask_questions(&mut got, setup),
        _ => answer(&mut got, setup, word, order),
    }
    if matches!(word, "read" | "limit" | "asked") {
        setup.text.clear();
    }
    out.note(got.memory());
    conclude(out, name, got.text(), wanted)
}
