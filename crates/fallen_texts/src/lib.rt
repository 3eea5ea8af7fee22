// The pieces of a plan text that would fall.
#![tactic(auto)]

ghost use Rattle.std.specs.Prelude.{◌≡◌, List, ℕ, ◌+◌, ◌/◌, ◌≤◌, ◌<◌, length};
ghost use Rattle.connectivity.specs.Plan.{plan, limits};
ghost use Rattle.connectivity.specs.Fallen.{per_word, words_for};
ghost use Rattle.connectivity.specs.Admission.{Admitted};
ghost use Rattle.text.specs.Column.{five, largest};
ghost use Rattle.verify_texts.specs.Texts.{plan_in};
ghost use Rattle.certify.specs.Answered.{fallen_in};
ghost use Rattle.fallen_texts.specs.Falls.{numbers_of, falls, WritesFallen};
ghost use Rattle.fallen_texts.specs.Listing.{Begins, marked_below, one_more};

use certify::Finding;
use graph::{Answer, Graph};
use removal::Fallen;

pub mod export; // export.rt: the same as C takes it

// A line for a number, and one for each vertex but the lowest, which never falls.
pub const FALLEN_SIZE: usize = 6 * Graph::MAX_VERTICES;

// Writes how many pieces of a plan text would fall, then a line for each; of a refused plan its number alone. 6 where `bytes` is shorter than
// that.
pub fn fallen_text(plan: &[u8], bytes: &mut [u8]) -> Result<usize, Answer>
    ensures { WritesFallen five largest limits plan.now bytes.old bytes.new result }
{
    let mut list = [0u16; 1 + Graph::MAX_VERTICES];
    let size = list_text(plan, &mut list);
    text_write::write_lines(1, &list[..size], bytes)
}

// The numbers of the lines, at the front of the list; how many there are.
fn list_text(plan: &[u8], list: &mut [u16]) -> usize
    requires { limits.vertices + 1 ≤ length list.old }
    ensures { Begins (numbers_of limits (plan_in five largest limits plan.now)) list.new result }
{
    let mut table = [0u16; 2 * Graph::MAX_EDGES + Graph::MAX_VERTICES];
    let read = text_read::read_plan(plan, &mut table);
    match read {
        Err(answer) => {
            list[0] = answer.number;
            1
        }
        Ok(graph) => {
            let (ends, excluded) = verify_texts::parts(graph, &table);
            list_admitted(graph.vertices, ends, excluded, list)
        }
    }
}

// The same of an admitted plan.
fn list_admitted(vertices: u16, ends: &[u16], excluded: &[u16], list: &mut [u16]) -> usize
    requires { Admitted limits (plan vertices ends.now excluded.now) × (limits.vertices + 1 ≤ length list.old) }
    ensures { Begins (falls limits (plan vertices ends.now excluded.now)) list.new result }
{
    let mut rows = [0u16; 3 * Graph::MAX_EDGES];
    let found = certify::verdict(vertices, ends, excluded, &mut rows);
    unpack(vertices, marks_of(found), list)
}

// The pieces that fall with a weak plan; none with another.
fn marks_of(found: Result<Finding, Answer>) -> Fallen
    ensures { result ≡ fallen_in limits found }
{
    match found {
        Ok(Finding::Weak { fallen, .. }) => fallen,
        _ => Fallen::none(),
    }
}

// How many are marked, then each vertex that is.
fn unpack(vertices: u16, fallen: Fallen, list: &mut [u16]) -> usize
    requires { (vertices ≤ limits.vertices) × (length fallen.words ≡ words_for limits) × (limits.vertices + 1 ≤ length list.old) }
    ensures { Begins (marked_below fallen.count fallen.words vertices) list.new result }
{
    let words = fallen.words;
    put_marked(vertices, fallen.count, &words, list)
}

// The first number, then each vertex that is marked.
fn put_marked(vertices: u16, count: u16, words: &[u64], list: &mut [u16]) -> usize
    requires { (vertices ≤ limits.vertices) × (length words.now ≡ words_for limits) × (limits.vertices + 1 ≤ length list.old) }
    ensures { Begins (marked_below count words.now vertices) list.new result }
{
    list[0] = count;
    let mut at = 1;
    for v in 0..vertices {
        at = put(v, words, list, at);
    }
    at
}

// One vertex, if it is marked; and the place behind it.
fn put(v: u16, words: &[u64], list: &mut [u16], at: usize) -> usize
    requires { (v / per_word < length words.now) × (at < length list.old) }
    ensures { ((front : List ℕ) → Begins front list.old at → Begins (one_more front words.now v) list.new result) × (result ≤ at + 1) }
{
    if (words[(v / 64) as usize] >> (v % 64) as u64) % 2 == 0 {
        return at;
    }
    list[at] = v;
    at + 1
}
