//! How far the copies lag behind their owners, told by numbers of writes: the figures of a round.

ghost use Rattle.std.specs.Prelude.{◌≡◌, ℕ, ◌≤◌, List, length, IfOk, IsOkUnless};
ghost use Rattle.version_lags.specs.Common.{OutOfMemory, Table, cells_in, IsStretchOf};
ghost use Rattle.version_lags.specs.Pieces.{numbers_seen, AreAllCounted, AreBehindEachOther, AreFigures, AreGrids, ArePieces, AreRoundNumbers, Counts, HasCounted, IsPieceOf, MayWalk, NumbersView, most_lag};

use crate::bounds::{LEAST_BYTES_OF_A_THREAD, threads_for};
use bench_types::{Fault, Figures};
use grids::{count_behind, least_behind};
use owner_writes::OwnerWrites;
use planes::{Ends, Grid, Number, Size, lower, total_upto};
use rayon::join;
use round_histories::{Hands, Resources};
use std::alloc::Global;
use std::mem::size_of_val;
use std::thread::Threads;

/// The numbers of all tables at the end of a round, plane by plane, and beside them the owners' lists, how many writes
/// each owner made before its generation, the number of its last write of each key, and where each round ends.
#[derive(Drop)]
pub struct RoundNumbers<'a, N: Number> {
    pub cells: &'a [&'a [N]],
    pub keys: usize,
    pub lists: &'a [OwnerWrites],
    pub bases: &'a [N],
    pub last: &'a [N],
    pub ends: Ends<'a, N>,
}

/// What some of the tables say.
#[derive(Drop)]
pub struct Piece<N: Number> {
    stale: u64,
    leftover: u64,
    // Of each owner's key the least number that one of them holds, or the last one where none is below it.
    least: Vec<N>,
}

impl<N: Number> Piece<N> {
    // What no table says.
    fn none(alloc: Global, numbers: &RoundNumbers<N>) -> Result<Piece<N>, Fault>
        requires { AreGrids (numbers_seen N.number numbers.now) }
        ensures { IfOk result (λ piece. (at : ℕ) → HasCounted N.number numbers.now at at piece)
            × IsOkUnless result OutOfMemory }
    {
        Ok(Piece {
            stale: 0,
            leftover: 0,
            least: Vec::from_slice(alloc, numbers.last)?,
        })
    }

    // Takes in what the tables behind these say.
    fn take_in(&mut self, others: &Piece<N>)
        requires { AreBehindEachOther N.number self.old others.now }
        ensures { (v : NumbersView) (from mid to : ℕ) → AreGrids v → IsPieceOf N.number v from mid self.old
            → IsPieceOf N.number v mid to others.entry.now → IsPieceOf N.number v from to self.new }
    {
        self.stale += others.stale;
        self.leftover += others.leftover;
        lower(&mut self.least, &others.least);
    }

    // The figures, where all tables say this. An owner's list is read only where that may make the most rounds more
    // than of the owners before it.
    fn figures(&self, alloc: Global, numbers: &RoundNumbers<N>) -> Result<Figures, Fault>
        requires { AreAllCounted N.number N.most numbers.now self.now }
        ensures { AreFigures N.number N.most numbers.now result }
    {
        let nodes = numbers.lists.len();
        let round = numbers.ends.rounds;
        let least = Grid {
            cells: &self.least,
            size: Size {
                nodes,
                keys: numbers.keys,
            },
        };
        let firsts = least_behind(alloc, least, numbers.last)?;
        let mut greatest = 0;
        for owner in 0..nodes {
            let first = firsts[owner];
            let since = round.saturating_sub(greatest);
            let row = numbers.ends.row(nodes, since);
            if row[owner].is_upto(first) {
                continue;
            }
            let lag = lag_of_owner(&numbers.lists[owner], least, owner, round, first);
            greatest = greatest.max(lag);
        }
        Ok(Figures {
            stale: self.stale,
            greatest,
            leftover: self.leftover,
        })
    }
}

// For how many rounds a copy of an owner has missed a write at most, by its list and the least numbers that are held:
// since the first one that some copy misses, which stands behind a number, the greatest where there is none.
fn lag_of_owner<N: Number>(
    list: &OwnerWrites,
    least: Grid<N>,
    owner: usize,
    round: u32,
    first: N,
) -> u32
    requires { MayWalk N.number N.most list.now least owner round (N.number first) }
    ensures { result ≡ most_lag least.entry.size.keys round list.now (cells_in N.number least.entry owner) }
{
    let Grid { cells, size } = least;
    if first.widen() == N::greatest().widen() {
        return 0;
    }
    let from = list.earlier_count().max(first.widen() as usize);
    for place in from..list.count() {
        if let Some(write) = list.numbered(place as u32 + 1) {
            if cells[write.key as usize * size.nodes + owner].widen() <= place as u32 {
                return round - write.born + 1;
            }
        }
    }
    0
}

// So many bytes are gone over by one thread where one worker has made the exchanges: the tables are near its thread
// alone, and others are slower at them.
const FEW_BYTES_OF_ONE_WORKER: usize = 2_097_152;

// How many tables a thread gets: as many as give each processor a thread, if each has enough to do, else more. It bears
// on time and memory alone.
fn tables_of_a_thread<N: Number>(numbers: &RoundNumbers<N>, hands: Hands) -> usize
    ensures { 1 ≤ result }
{
    let tables = numbers.lists.len();
    let bytes = size_of_val(numbers.last).saturating_mul(tables);
    if hands.workers == 1 && bytes <= FEW_BYTES_OF_ONE_WORKER {
        return tables.saturating_add(1);
    }
    let threads = threads_for(bytes, LEAST_BYTES_OF_A_THREAD, hands);
    (tables / threads).saturating_add(1)
}

/// What the tables from one on up to another say, as one of several threads counts it. It takes memory for the numbers
/// of a table. An error is lack of that memory (`OutOfMemory`).
pub fn piece_of<N: Number>(
    alloc: Global,
    numbers: &RoundNumbers<N>,
    from: usize,
    to: usize,
) -> Result<Piece<N>, Fault>
    requires { AreGrids (numbers_seen N.number numbers.now) × IsStretchOf (length numbers.now.lists.now) from to }
    ensures { Counts N.number numbers.now from to result }
{
    let size = Size {
        nodes: numbers.lists.len(),
        keys: numbers.keys,
    };
    let RoundNumbers { bases, last, .. } = *numbers;
    let forgot = planes::count_held(bases) > 0;
    let mut piece = Piece::none(alloc, numbers)?;
    for at in from..to {
        let here = numbers.cells[at];
        let grid = Grid { cells: here, size };
        let behind = count_behind(&mut piece.least, grid, last);
        piece.stale += u64::from(behind);
        if forgot {
            piece.leftover += u64::from(total_upto(grid, bases));
        }
    }
    Ok(piece)
}

// What all tables from one on say, so many in each thread. This thread starts all others: where a new thread starts
// another one, the system may put both on one processor.
#[cycle(rest)]
fn rest_from<N: Number + Send + Sync>(
    resources: &Resources<impl Threads + Sync>,
    numbers: &RoundNumbers<N>,
    size: usize,
    from: usize,
) -> Result<Piece<N>, Fault>
    requires { AreGrids (numbers_seen N.number numbers.now) × (1 ≤ size) × (from ≤ length numbers.now.lists.now) }
    ensures { Counts N.number numbers.now from (length numbers.now.lists.now) result }
{
    let alloc = resources.alloc;
    let nodes = numbers.lists.len();
    if nodes - from <= size {
        return piece_of(alloc, numbers, from, nodes);
    }
    let to = from + size;
    let first = || -> Result<Piece<N>, Fault>
        requires { AreGrids (numbers_seen N.number numbers.now) × IsStretchOf (length numbers.now.lists.now) from to }
        ensures { Counts N.number numbers.entry.now from to result }
    { piece_of(alloc, numbers, from, to) };
    let others = || -> Result<Piece<N>, Fault>
        requires { AreGrids (numbers_seen N.number numbers.now) × (1 ≤ size) × (to ≤ length numbers.now.lists.now) }
        ensures { Counts N.number numbers.entry.now to (length numbers.entry.now.lists.now) result }
    { rest_from(resources, numbers, size, to) };
    let (first, others) = join(resources.rt, first, others);
    let mut piece = first?;
    piece.take_in(&others?);
    Ok(piece)
}

/// The figures of the tables at the end of the last round, down nodes included: how many keys of copies are below the
/// last writes in their owners' lists, by marks, each list of its owner's generation; the greatest number of rounds
/// since the first write that one of them missed, that round included; and how many entries of copies are of an older
/// generation than their owner's.
///
/// It works in threads where there is enough to count, and leaves up to 2 MiB to the caller's thread if one worker has
/// carried out the round's exchanges; what it answers does not depend on how. Each thread goes once over the numbers of
/// some of the tables. Then an owner's list is walked over from the first write that some copy misses, if any, to the
/// next one, where that may be older than what was found so far. It takes memory for the numbers of a table for each
/// part of the tables. An error is lack of that memory (`OutOfMemory`).
pub fn figures<N: Number + Send + Sync>(
    resources: &Resources<impl Threads + Sync>,
    numbers: &RoundNumbers<N>,
) -> Result<Figures, Fault>
    requires are { (tables : List Table) × AreRoundNumbers N.number N.most numbers.now tables }
    ensures { AreFigures N.number N.most numbers.now result }
{
    let size = tables_of_a_thread(numbers, resources.hands);
    let whole = rest_from(resources, numbers, size, 0)?;
    whole.figures(resources.alloc, numbers)
}

/// The same figures, by what several threads have counted, each a part of the tables. It takes memory for the numbers
/// of a table. An error is lack of memory (`OutOfMemory`), also of a thread's.
pub fn figures_of_pieces<N: Number>(
    alloc: Global,
    numbers: &RoundNumbers<N>,
    pieces: &[Result<Piece<N>, Fault>],
) -> Result<Figures, Fault>
    requires are { (tables : List Table) × AreRoundNumbers N.number N.most numbers.now tables }
    requires pieces { ArePieces N.number numbers.now pieces.now }
    ensures { AreFigures N.number N.most numbers.now result }
{
    let mut whole = Piece::none(alloc, numbers)?;
    for counted in pieces {
        let Ok(piece) = counted else {
            return Err(Fault::OutOfMemory);
        };
        whole.take_in(piece);
    }
    whole.figures(alloc, numbers)
}
