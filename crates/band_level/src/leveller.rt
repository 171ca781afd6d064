// Bytes that are fed, as levelled bytes.
ghost use Rattle.std.specs.Prelude.{◌≡◌, ℕ, ◌+◌, ◌*◌, ◌/◌, ◌<◌, ◌≤◌, List, [], true, false, length, take, IfOk};
ghost use Rattle.band_level.specs.Values.{cells, spectrum_bytes};
ghost use Rattle.band_level.specs.Ranges.{FormatInRange, PlanInRange};
ghost use Rattle.band_level.specs.Holding.{Puts, cleared, held_bytes};
ghost use Rattle.band_level.specs.Levelling.{Levelling, Levels, Takes, Gives, EndsAs, IsDone, pending};
ghost use Rattle.band_level.specs.Steps.{MakesPiece, Measures, stretch_bytes};
ghost use Rattle.band_level.specs.Rows.{HasRows, HasScales, SpaceFits};
ghost use Rattle.band_level.specs.Sound.{FitsTask, PieceFits, StretchFits, task_in};

use crate::cells::{CellRows, CellScales, CellSpace};
use crate::format::Format;
use crate::held::Held;
use crate::measure::measure;
use crate::plan::Plan;
use crate::space::bytes;
use crate::spectra::level_spectra;
use crate::task::Task;
use psr_base::Memory;
use std::alloc::Global;
use std::marker::Model;

// About how many bytes are levelled at a time.
const PIECE: usize = 262144;

/// Data bytes that are fed in pieces and come out levelled. Once a stretch is whole its spectra are levelled, some at a
/// time; once the data have ended, what is left of them is.
#[derive(Drop)]
pub struct Leveller {
    task: Task,
    // what came of the stretch
    held: Held,
    // which spectra of the stretch are to be levelled next
    first: usize,
    last: usize,
    is_scaled: bool,
    has_ended: bool,
    scales: CellScales,
    rows: CellRows,
    space: CellSpace,
    // room for levelled bytes, of which so many are filled
    piece: Vec<u8>,
    made: usize,
}

impl Model for Leveller {
    ghost Value = { Levelling };

    ghost view = { λ l. record {
      task = task_in l.task;
      held = l.held;
      first = l.first;
      last = l.last;
      is_scaled = l.is_scaled;
      has_ended = l.has_ended;
      gains = l.scales.gains.items;
      bases = l.scales.bases.items;
      lifts = l.scales.lifts.items;
      fractions = l.rows.fractions.items;
      piece = take l.made l.piece.items;
    } };

    ghost invariant = { λ l. record {
      task : FitsTask l.task;
      stretch : StretchFits l.task.format l.task.plan l.held l.first l.last;
      scales : HasScales (cells l.task.format) l.scales;
      rows : HasRows (cells l.task.format) l.rows;
      space : SpaceFits (cells l.task.format) l.space;
      piece : PieceFits l.task.format l.task.plan l.piece.items l.made;
    } };
}

impl Leveller {
    /// Takes the memory for a stretch, and for some levelled bytes. The marks say which channels are masked, in the
    /// order of the file.
    pub fn open(
        alloc: Global,
        format: Format,
        plan: Plan,
        masked: &[bool],
    ) -> Result<Leveller, Memory>
        requires format { FormatInRange format }
        requires plan { PlanInRange plan }
        requires masked { length masked.now ≡ format.channels }
        ensures task { IfOk result (λ l.
            l.task ≡ record { format = format; plan = plan; masked = masked.now }) }
        ensures goes_on { IfOk result (λ l. l.has_ended ≡ false) }
        ensures nothing { IfOk result (λ l. Levels l [] []) }
    {
        let cells = (format.channels * format.polarisations) as usize;
        let written = cells * (plan.bits as usize / 8);
        Ok(Leveller {
            task: Task {
                format,
                plan,
                masked: marks(alloc, masked)?,
            },
            held: Held::open(alloc, format, plan.spectra)?,
            first: 0,
            last: 0,
            is_scaled: false,
            has_ended: false,
            scales: CellScales::open(alloc, cells)?,
            rows: CellRows::open(alloc, cells)?,
            space: CellSpace::open(alloc, cells)?,
            piece: bytes(alloc, (PIECE / written).max(1) * written)?,
            made: 0,
        })
    }

    // What always holds, for callers.
    fn bounds(&self)
        ensures format { FormatInRange self.now.task.format }
        ensures spectra { 0 < self.now.task.plan.spectra }
        ensures few { self.now.task.plan.spectra ≤ 1048576 }
        ensures order { self.now.first ≤ self.now.last }
    {
        let _ = &self.task.format;
    }

    /// Takes bytes until the stretch is whole, and says how many it took: none where spectra are to be levelled, or
    /// the data have ended; else at least one, if there is one.
    pub fn feed(&mut self, bytes: &[u8]) -> usize
        ensures within { result ≤ length bytes.now }
        ensures takes { Takes self.old self.new (take result bytes.now) }
        ensures rest { self.old.has_ended ≡ false → result < length bytes.now
            → 0 < pending self.new }
        ensures some { (fed out : List ℕ) → Levels self.old fed out → self.old.has_ended ≡ false
            → pending self.old ≡ 0 → 0 < length bytes.now → 0 < result }
    {
        self.bounds();
        if self.first < self.last || self.has_ended {
            return 0;
        }
        let count = self.hold(bytes);
        if self.is_full() {
            let all = self.task.plan.spectra as usize;
            self.schedule(all, false);
            self.measure(all);
        }
        count
    }

    // Holds bytes until the stretch is whole.
    fn hold(&mut self, bytes: &[u8]) -> usize
        ensures within { result ≤ length bytes.now }
        ensures same { self.new ≡ record self.old { held = self.new.held } }
        ensures held { Puts self.old.task.format self.old.held self.new.held
            (take result bytes.now) }
        ensures rest { result < length bytes.now
            → held_bytes self.old.task.format self.new.held ≡ stretch_bytes self.old.task }
    {
        self.held.put(bytes)
    }

    // Whether the stretch is whole.
    fn is_full(&self) -> bool
        ensures full { result ≡ true
            → held_bytes self.now.task.format self.now.held ≡ stretch_bytes self.now.task }
        ensures short { result ≡ false
            → held_bytes self.now.task.format self.now.held < stretch_bytes self.now.task }
    {
        self.held.is_full()
    }

    // Makes the scales of the first spectra that are held.
    fn measure(&mut self, count: usize)
        requires some { 0 < count }
        requires most { count ≤ 1048576 }
        requires inside { count * spectrum_bytes self.old.task.format
            ≤ held_bytes self.old.task.format self.old.held }
        ensures { Measures self.old self.new count }
    {
        measure(
            &self.held,
            &self.task,
            count,
            self.rows.row.as_mut_slice(),
            &mut self.space,
            &mut self.scales,
        );
        self.is_scaled = true;
    }

    /// How many spectra are to be levelled next.
    pub fn pending(&self) -> usize
        ensures count { result ≡ pending self.now }
        ensures done { self.now.has_ended ≡ true → result ≡ 0 → IsDone self.now }
    {
        self.last - self.first
    }

    /// Levels the next spectra, or some of them: their bytes are the piece.
    pub fn level(&mut self)
        requires { 0 < pending self.old }
        ensures { Gives self.old self.new }
    {
        self.bounds();
        self.make_piece();
        if self.first < self.last || self.has_ended {
            return;
        }
        self.next_stretch();
    }

    // Levels as many of the next spectra as there is room for.
    fn make_piece(&mut self)
        requires { 0 < pending self.old }
        ensures { MakesPiece self.old self.new }
    {
        let written = self.task.written_bytes();
        let count = (self.last - self.first).min(self.piece.len() / written);
        level_spectra(
            &self.held,
            &self.task,
            self.first,
            count,
            &self.scales,
            &mut self.rows,
            self.piece.as_mut_slice(),
        );
        self.made = count * written;
        self.first += count;
    }

    // Forgets a stretch that is levelled.
    fn next_stretch(&mut self)
        ensures { self.new ≡ record self.old { held = cleared self.old.held; first = 0; last = 0 } }
    {
        self.held.clear();
        self.first = 0;
        self.last = 0;
    }

    /// The bytes that were levelled last.
    pub fn piece(&self) -> &[u8]
        ensures { result.now ≡ self.now.piece }
    {
        &self.piece.as_slice()[..self.made]
    }

    /// Ends the data: the whole spectra that are held are to be levelled next.
    pub fn end(&mut self)
        requires { pending self.old ≡ 0 }
        ensures { EndsAs self.old self.new }
    {
        self.bounds();
        if self.has_ended {
            return;
        }
        let count = self.whole_spectra();
        self.schedule(count, true);
        if count == 0 || self.is_scaled {
            return;
        }
        self.measure(count);
    }

    // How many whole spectra are held.
    fn whole_spectra(&self) -> usize
        ensures count { result ≡ held_bytes self.now.task.format self.now.held
            / spectrum_bytes self.now.task.format }
        ensures few { result ≤ self.now.task.plan.spectra }
        ensures inside { result * spectrum_bytes self.now.task.format
            ≤ held_bytes self.now.task.format self.now.held }
    {
        self.held.whole_spectra()
    }

    // Has the first spectra that are held levelled next.
    fn schedule(&mut self, count: usize, has_ended: bool)
        requires few { count ≤ self.old.task.plan.spectra }
        requires inside { count * spectrum_bytes self.old.task.format
            ≤ held_bytes self.old.task.format self.old.held }
        ensures { self.new
            ≡ record self.old { first = 0; last = count; has_ended = has_ended } }
    {
        self.first = 0;
        self.last = count;
        self.has_ended = has_ended;
    }
}

// A copy of marks.
fn marks(alloc: Global, masked: &[bool]) -> Result<Vec<bool>, Memory>
    ensures { IfOk result (λ v. v.items ≡ masked.now) }
{
    Ok(masked.to_vec(alloc)?)
}
