//! The components of a set of places in rows, found one after the other by flooding, a run of a row at a time.
//! The runs to be followed stand in a list, so that no call goes as deep as a component is large.
ghost use Rattle.std.specs.Prelude.{◌≡◌, ℕ, suc, ◌+◌, ◌-◌, ◌≤◌, ◌<◌, ◌%◌, List, length, slice_index, false, IfOk, vec_len};
ghost use Rattle.shape_terms.specs.Parts.{NamesParts, InOrder};
ghost use Rattle.shape_grid.specs.Runs.{IsRunEnd};
ghost use Rattle.shape_adj.specs.Labels.{Took, IsBeside, IsRowAround, InRun, NoneBeside, Following, Entered, Grown, Searched, LabelsNet};
ghost use Rattle.shape_adj.specs.Todo.{Marked, trues};

use crate::rows::RowNet;
use crate::run::Run;
use crate::store::LabelStore;
use shape_grid::Bits;
use shape_space::NoMemory;
use std::alloc::{AllocError, Global};

// A search for components: the labels, the places of the set that have none yet, and the runs that are still to be followed.
#[derive(Drop)]
struct Search<L: LabelStore> {
    labels: L,
    todo: Bits,
    work: Vec<Run>,
}

// Labels the places of a row around one of them that have no label yet, and tells where they end.
fn take<L: LabelStore>(
    search: &mut Search<L>,
    row: Run,
    q: usize,
    label: u32,
) -> Result<usize, AllocError>
    requires low { row.from ≤ q }
    requires high { q < row.until }
    requires within { row.until ≤ length search.old.todo }
    requires there { Marked search.old.todo q }
    requires told { (list : List ℕ) × L.Tells search.old.labels list
        × (length list ≡ length search.old.todo) }
    ensures { IfOk result (λ end. Took row q label end search.old.todo search.new.todo
        search.old.work.items search.new.work.items (L.Tells search.old.labels)
        (L.Tells search.new.labels)) }
{
    let from = search.todo.start_of_trues(row.from as usize, q);
    let until = search.todo.end_of_trues(q, row.until as usize);
    let run = Run {
        from: from as u32,
        until: until as u32,
    };
    search.todo.clear_all(from, until);
    search.labels.put(run, label);
    search.work.push(run)?;
    Ok(until)
}

// The first place of a stretch without a label yet, or its end, from a place on that may be behind it.
fn next_in(todo: &Bits, from: usize, until: usize) -> usize
    requires { until ≤ length todo.now }
    ensures before { from ≤ until → IsRunEnd todo.now false from until result }
    ensures behind { until < from → result ≡ until }
{
    if from <= until {
        todo.end_of_falses(from, until)
    } else {
        until
    }
}

// Labels the runs of a row that have places in a window, which are beside a run.
fn enter<N: RowNet, L: LabelStore>(
    net: &N,
    search: &mut Search<L>,
    run: Run,
    row: Run,
    window: Run,
    label: u32,
) -> Result<(), AllocError>
    requires beside { IsBeside (N.size net.now) (N.width net.now) (N.Adjacent net.now)
        run row window }
    requires following { (list : List ℕ) × L.Tells search.old.labels list
        × Following (N.Holds net.now) (N.Adjacent net.now) (N.size net.now) (N.width net.now)
        run label list search.old.todo search.old.work.items }
    ensures entered { IfOk result (λ _. Entered (N.Holds net.now) (N.Adjacent net.now)
        (N.size net.now) (N.width net.now) run label (L.Tells search.old.labels)
        (L.Tells search.new.labels) search.old.todo search.new.todo search.old.work.items
        search.new.work.items) }
    ensures none { IfOk result (λ _. (q : ℕ) → InRun window q → Marked search.new.todo q → ⊥) }
{
    net.in_rows();
    let end = window.until as usize;
    let mut q = next_in(&search.todo, window.from as usize, end);
    while q < end {
        let behind = take(search, row, q, label)?;
        q = next_in(&search.todo, behind, end);
    }
    Ok(())
}

// The places of a row that are no further apart than `reach` from the places of a run, which is of the row that starts at `start`.
fn window(run: Run, start: u32, row: Run, reach: u32) -> Run
    requires on { start ≤ run.from }
    requires some { run.from ≤ run.until }
    requires within { run.until - start ≤ row.until - row.from }
    requires row { row.from ≤ row.until }
    ensures from { result.from ≡ row.from + (run.from - start - reach) }
    ensures until { result.until
        ≡ row.until - (row.until - row.from - (run.until - start) - reach) }
{
    let low = run.from - start;
    let left = (row.until - row.from) - (run.until - start);
    let from = if low > reach {
        row.from + (low - reach)
    } else {
        row.from
    };
    let until = if left > reach {
        row.until - (left - reach)
    } else {
        row.until
    };
    Run { from, until }
}

// Labels the runs of the row that a step leads to which are beside a run. The row of the run starts at `start`.
fn follow<N: RowNet, L: LabelStore>(
    net: &N,
    search: &mut Search<L>,
    run: Run,
    start: u32,
    k: usize,
    label: u32,
) -> Result<(), AllocError>
    requires below { k < N.degree net.now }
    requires start { start ≡ run.from - run.from % N.width net.now }
    requires following { (list : List ℕ) × L.Tells search.old.labels list
        × Following (N.Holds net.now) (N.Adjacent net.now) (N.size net.now) (N.width net.now) run
        label list search.old.todo search.old.work.items }
    ensures entered { IfOk result (λ _. Entered (N.Holds net.now) (N.Adjacent net.now)
        (N.size net.now) (N.width net.now) run label (L.Tells search.old.labels)
        (L.Tells search.new.labels) search.old.todo search.new.todo search.old.work.items
        search.new.work.items) }
    ensures none { IfOk result (λ _. NoneBeside (N.width net.now) (N.reach net.now) run start
        (N.beside net.now start k) search.new.todo) }
{
    net.in_rows();
    match net.step(start, k) {
        Some(other) => {
            let row = Run {
                from: other,
                until: other + net.row_length(),
            };
            let window = window(run, start, row, net.row_reach());
            enter(net, search, run, row, window, label)?;
            Ok(())
        }
        None => Ok(()),
    }
}

// Labels the runs that are beside a run.
fn spread<N: RowNet, L: LabelStore>(
    net: &N,
    search: &mut Search<L>,
    run: Run,
    label: u32,
) -> Result<(), AllocError>
    requires { (list : List ℕ) × L.Tells search.old.labels list × Following (N.Holds net.now)
        (N.Adjacent net.now) (N.size net.now) (N.width net.now) run label list search.old.todo
        search.old.work.items }
    ensures grown { IfOk result (λ _. (list : List ℕ) → L.Tells search.old.labels list → Following
        (N.Holds net.now) (N.Adjacent net.now) (N.size net.now) (N.width net.now) run label list
        search.old.todo search.old.work.items → (more : List ℕ) × L.Tells search.new.labels more
        × Grown (N.Holds net.now) (N.Adjacent net.now) (N.size net.now) (N.width net.now) label list
        more search.new.todo search.new.work.items) }
    ensures less { IfOk result (λ _. trues search.new.todo + length search.new.work.items
        ≤ trues search.old.todo + length search.old.work.items) }
{
    net.in_rows();
    let start = run.from - run.from % net.row_length();
    for k in 0..net.steps() {
        follow(net, search, run, start, k, label)?;
    }
    Ok(())
}

// The row that a place is in.
fn row_of<N: RowNet>(net: &N, s: u32) -> Run
    requires { s < N.size net.now }
    ensures { IsRowAround (N.size net.now) (N.width net.now) s result }
{
    net.in_rows();
    let length = net.row_length();
    let start = s - s % length;
    Run {
        from: start,
        until: start + length,
    }
}

// Labels the component of `s`, the next one.
fn fill<N: RowNet, L: LabelStore>(
    net: &N,
    search: &mut Search<L>,
    s: u32,
    label: u32,
) -> Result<(), AllocError>
    requires next { Marked search.old.todo s }
    requires searched { (n : ℕ) × (label ≡ suc n) × Searched (N.Holds net.now) (N.Adjacent net.now)
        (N.size net.now) (L.Tells search.old.labels) search.old.todo search.old.work.items s n }
    ensures { IfOk result (λ _. Searched (N.Holds net.now) (N.Adjacent net.now) (N.size net.now)
        (L.Tells search.new.labels) search.new.todo search.new.work.items (s + 1) label) }
{
    net.in_rows();
    let row = row_of(net, s);
    take(search, row, s as usize, label)?;
    while let Some(run) = search.work.pop() {
        spread(net, search, run, label)?;
    }
    Ok(())
}

/// The components of a net: their number, and the labels of the places as `L` keeps them.
#[derive(Drop)]
pub struct Components<L> {
    /// How many components there are.
    pub count: u32,
    /// For each place the number of its component from 1 on, or 0 where it is not in the set.
    pub labels: L,
}

/// Finds the components in the order of their first places, and labels them.
pub fn flood<N: RowNet, L: LabelStore>(alloc: Global, net: &N) -> Result<Components<L>, NoMemory>
    ensures { IfOk result (λ c. (list : List ℕ) × L.Tells c.labels list × LabelsNet
        (N.Holds net.now) (N.Adjacent net.now) (N.size net.now) c.count list) }
{
    let labels = L::blank(alloc, net.places())?;
    let todo = net.todo(alloc)?;
    let mut search = Search {
        labels,
        todo,
        work: Vec::new(alloc),
    };
    let mut count = 0;
    let mut from = 0;
    while let Some(s) = search.todo.first_from(from) {
        count += 1;
        fill(net, &mut search, s as u32, count)?;
        from = s + 1;
    }
    Ok(Components {
        count,
        labels: search.labels,
    })
}

/// Labels the components in the order of their first places.
pub fn label_components<N: RowNet>(alloc: Global, net: &N) -> Result<Components<Vec<u32>>, NoMemory>
    ensures filled { IfOk result (λ c. length c.labels.items ≡ N.size net.now) }
    ensures members { IfOk result (λ c. (i : ℕ) → 1 ≤ slice_index c.labels.items i
        → N.Holds net.now i) }
    ensures ordered { IfOk result (λ c. InOrder c.labels.items) }
    ensures parts { IfOk result (λ c. NamesParts (N.Adjacent net.now) (N.Holds net.now) c.count
        (slice_index c.labels.items)) }
{
    flood(alloc, net)
}
