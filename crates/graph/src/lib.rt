// The graph that a plan lists: its limits, and the constructor that admits it or refuses it by 1 to 5, 18 and 19.
#![tactic(auto)]

ghost use Rattle.std.specs.Prelude.{◌≡◌, not, cond, ◌/◌, ◌≤◌, length};
ghost use Rattle.connectivity.specs.Plan.{plan, limits};
ghost use Rattle.connectivity.specs.Admission.{answer, edge_number, ends_answer, passed};
ghost use Rattle.graph.specs.Admission.{told_by, handed, constructed, lent, Listed};

pub mod ends; // ends.rt: the two ends of an edge
pub mod excluded; // excluded.rt: excluded vertices, and the edges that end there

// An answer to every question asked of these crates (01): a number and a place; 0 and 0 is success.
#[derive(Clone, Copy)]
pub struct Answer {
    pub number: u16,
    pub place: u16,
}

// A graph (01: plan): how many vertices and edges, and how many of them are kept (02). The table of ends, two for each edge, and the list of
// excluded vertices stay with the caller.
#[derive(Clone, Copy)]
pub struct Graph {
    pub vertices: u16,
    pub edges: u16,
    pub kept_vertices: u16,
    pub kept_edges: u16,
}

impl Graph {
    pub const MAX_VERTICES: usize = 1000;

    pub const MAX_EDGES: usize = 4000;

    // The graph with `vertices` vertices, of which those of `excluded` are not kept, and whose edges have the ends `ends`; or the first refusal
    // in order: 1, 2, 3, the first edge with 4 or 5, 18, 19.
    pub fn new(vertices: u16, ends: &[u16], excluded: &[u16]) -> Result<Graph, Answer>
        ensures { handed result ≡ constructed limits (plan vertices ends.now excluded.now) }
    {
        if ends.len() % 2 != 0 {
            return refused(1, 0);
        }
        if vertices < 2 {
            return refused(2, 0);
        }
        if Graph::MAX_VERTICES < vertices as usize {
            return refused(2, 0);
        }
        if Graph::MAX_EDGES < ends.len() / 2 {
            return refused(3, 0);
        }
        let fit = judge_ends(vertices, ends);
        let first = fit.number;
        if first != 0 {
            return Err(fit);
        }
        admit(vertices, ends, excluded)
    }
}

// The same of a plan that 1 to 5 do not refuse: 18 and 19 are left.
fn admit(vertices: u16, ends: &[u16], excluded: &[u16]) -> Result<Graph, Answer>
    requires { Listed limits (plan vertices ends.now excluded.now) }
    ensures { handed result ≡ constructed limits (plan vertices ends.now excluded.now) }
{
    let rising = excluded::judge_excluded(vertices, excluded);
    let number = rising.number;
    if number != 0 {
        return Err(rising);
    }
    let kept = vertices - excluded.len() as u16;
    if kept < 2 {
        return refused(19, 0);
    }
    Ok(Graph {
        vertices: vertices,
        edges: (ends.len() / 2) as u16,
        kept_vertices: kept,
        kept_edges: excluded::count_kept(vertices, ends, excluded),
    })
}

fn refused(number: u16, place: u16) -> Result<Graph, Answer>
    ensures { result ≡ Err (record { number = number; place = place }) }
{
    Err(Answer {
        number: number,
        place: place,
    })
}

// The plan's own refusal; else 6 where the lent space is too short, and 0 where it is not.
pub fn refusal(vertices: u16, ends: &[u16], excluded: &[u16], short: bool) -> Answer
    ensures { result ≡ told_by (lent limits (plan vertices ends.now excluded.now) (not short)) }
{
    let made = Graph::new(vertices, ends, excluded);
    match made {
        Err(answer) => answer,
        Ok(_) => space(short),
    }
}

fn space(short: bool) -> Answer
    ensures { result ≡ told_by (cond short (answer 6 0) passed) }
{
    if short {
        return Answer {
            number: 6,
            place: 0,
        };
    }
    Answer {
        number: 0,
        place: 0,
    }
}

// 0 for ends that all fit; else the first edge that does not is looked for.
fn judge_ends(vertices: u16, ends: &[u16]) -> Answer
    requires { length ends.now / 2 ≤ limits.edges }
    ensures { result ≡ told_by (ends_answer vertices 0 ends.now) }
{
    if misfits(vertices, ends) == 0 {
        return Answer {
            number: 0,
            place: 0,
        };
    }
    first_misfit(vertices, ends)
}

// The numbers of all edges, 4, 5 or 0 each, added up. The loop has no way out, so that several edges are judged at once.
fn misfits(vertices: u16, ends: &[u16]) -> u16
    requires { length ends.now / 2 ≤ limits.edges }
    ensures { result ≡ 0 → ends_answer vertices 0 ends.now ≡ passed }
{
    let mut sum: u16 = 0;
    for e in 0..ends.len() / 2 {
        sum += judge_edge(vertices, ends[2 * e], ends[2 * e + 1]);
    }
    sum
}

// The first edge with an end that is not below `vertices` (4) or with two equal ends (5), 4 before 5.
fn first_misfit(vertices: u16, ends: &[u16]) -> Answer
    requires { length ends.now / 2 ≤ limits.edges }
    ensures { result ≡ told_by (ends_answer vertices 0 ends.now) }
{
    for e in 0..ends.len() / 2 {
        let number = judge_edge(vertices, ends[2 * e], ends[2 * e + 1]);
        if number != 0 {
            return Answer {
                number: number,
                place: e as u16,
            };
        }
    }
    Answer {
        number: 0,
        place: 0,
    }
}

// 4, 5 or 0 for the edge with these ends.
pub fn judge_edge(vertices: u16, left: u16, right: u16) -> u16
    ensures { result ≡ edge_number vertices left right }
{
    if vertices <= left {
        return 4; // the left end
    }
    if vertices <= right {
        return 4; // the right end
    }
    if left == right { 5 } else { 0 }
}
