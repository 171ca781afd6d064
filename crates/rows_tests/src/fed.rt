// A carry with the stream that it is fed.
ghost use Rattle.std.specs.Prelude.{◌≡◌, ◌+◌, ◌*◌, ◌^◌, ◌<◌, ◌≤◌, true, length, IfOk};
ghost use Rattle.dada_model.specs.Edges.{AreEdges};
ghost use Rattle.row_schedule.specs.Samples.{values_of};
ghost use Rattle.fdmt_carry.specs.Tables.{node_count};
ghost use Rattle.rows_tests.specs.Ready.{IsReady, IsShape};

use crate::direct::{Stream, delays_of};
use fdmt_carry::{Carry, Samples};
use psr_base::Memory;
use std::alloc::Global;
use subband_plan::{Node, Plan};

/// No more spectra than this are taken.
const MOST: u64 = 1 << 40;

/// What is fed: a band of `channels` channels, delays from `first` to `last`, and calls of at most `chunk` spectra.
#[derive(Clone, Copy, Debug)]
pub struct Shape {
    pub channels: u32,
    pub first: u32,
    pub last: u32,
    pub chunk: u32,
}

impl Shape {
    /// Whether a carry can be opened for this band and these delays and calls.
    pub fn may_be(self) -> bool
        ensures { result ≡ true → IsShape self.channels self.first self.last self.chunk }
    {
        self.channels >= 2
            && self.channels <= 4096
            && self.first <= self.last
            && self.last <= 8192
            && self.chunk >= 1
            && self.chunk <= 65536
    }
}

/// A carry, and the stream whose sums it must make.
#[derive(Drop)]
pub struct Fed {
    carry: Carry,
    direct: Direct,
    shape: Shape,
    ghost ready: { IsReady carry shape.channels shape.first shape.last shape.chunk },
}

// The edges of a band in kHz, and a stream of samples.
#[derive(Drop)]
struct Direct {
    edges: Vec<u32>,
    stream: Stream,
}

impl Direct {
    // How many values of a row are wrong. They must be the sums over a node that end at spectrum `start` and after it.
    fn wrong(
        &self,
        alloc: Global,
        node: Node,
        d: u32,
        start: usize,
        row: &[u32],
    ) -> Result<u64, Memory> {
        let delays = delays_of(alloc, self.edges.as_slice(), node, d)?;
        let mut wrong: u64 = 0;
        for (i, sum) in row.iter().enumerate() {
            let direct = self
                .stream
                .sum(node, delays.as_slice(), d, start.wrapping_add(i));
            wrong = wrong.wrapping_add(u64::from(direct != *sum));
        }
        Ok(wrong)
    }
}

impl Fed {
    /// A new carry and its stream. Nothing is fed yet.
    pub fn new(alloc: Global, shape: Shape, spectra: usize) -> Result<Fed, Memory>
        requires { IsShape shape.channels shape.first shape.last shape.chunk }
    {
        let edges = edges_of(alloc, shape.channels)?;
        let plan = Plan::open(alloc, edges.as_slice(), shape.first, shape.last)?;
        let carry = Carry::open(alloc, plan, shape.chunk, 255)?;
        let stream = Stream::new(alloc, shape.channels as usize, spectra)?;
        Ok(Fed {
            carry,
            direct: Direct { edges, stream },
            shape,
        })
    }

    /// Takes the next `count` spectra, as bytes or as 32-bit values, with the rows of all nodes if `whole`, otherwise
    /// by a pass. Answers how many of the sums made are wrong.
    pub fn check(
        &mut self,
        alloc: Global,
        count: u32,
        whole: bool,
        in_bytes: bool,
    ) -> Result<u64, Memory> {
        if self.carry.fed() >= MOST {
            return Ok(1);
        }
        let count = count.min(self.shape.chunk);
        let rows = self.rows(alloc, count)?;
        let bytes = bytes_of(alloc, rows.as_slice())?;
        let samples = if in_bytes {
            Samples::Bytes(bytes.as_slice())
        } else {
            Samples::Words(rows.as_slice())
        };
        if !whole {
            return pass(
                alloc,
                &mut self.carry,
                &self.direct,
                self.shape,
                samples,
                count,
            );
        }
        self.carry.take(samples, count);
        self.wrong_in_tables(alloc, count)
    }

    // The samples of the next spectra. The places past them have a number that no sum may contain.
    fn rows(&self, alloc: Global, count: u32) -> Result<Vec<u32>, Memory>
        ensures { IfOk result (λ rows. length rows.items
            ≡ self.now.shape.channels * self.now.shape.chunk) }
    {
        let chunk = self.shape.chunk as usize;
        let from = self.carry.fed() as usize;
        let mut rows = Vec::new(alloc);
        for place in 0..self.shape.channels as usize * chunk {
            let (c, i) = (place / chunk, place % chunk);
            let next = i < count as usize;
            rows.push(if next {
                self.direct.stream.at(c, from.wrapping_add(i))
            } else {
                1_000_000_007
            })?;
        }
        Ok(rows)
    }

    // How many sums in the rows of all nodes are wrong. If these can't be read, all are.
    fn wrong_in_tables(&self, alloc: Global, count: u32) -> Result<u64, Memory> {
        let start = self.carry.fed().wrapping_sub(u64::from(count)) as usize;
        let mut wrong = u64::from(!self.carry.has_tables());
        for k in 0..self.carry.plan().nodes() {
            wrong = wrong.wrapping_add(self.wrong_in_table(alloc, k, start)?);
        }
        Ok(wrong)
    }

    fn wrong_in_table(&self, alloc: Global, k: usize, start: usize) -> Result<u64, Memory>
        requires { k < node_count self.now.carry.tables }
    {
        let node = self.carry.plan().node(k);
        let mut wrong: u64 = 0;
        for d in node.first_row..node.last_row.saturating_add(1) {
            let row = table_of(&self.carry, k, d);
            wrong = wrong.wrapping_add(self.direct.wrong(alloc, node, d, start, row)?);
        }
        Ok(wrong)
    }
}

// Takes the next spectra by a pass, and answers how many sums of the whole band are wrong.
fn pass(
    alloc: Global,
    carry: &mut Carry,
    direct: &Direct,
    shape: Shape,
    samples: Samples<'_>,
    count: u32,
) -> Result<u64, Memory>
    requires ready { IsReady carry.old shape.channels shape.first shape.last shape.chunk }
    requires short { count ≤ shape.chunk }
    requires few { carry.old.fed < 2 ^ 40 }
    requires samples { length (values_of samples) ≡ shape.channels * shape.chunk }
    ensures { IsReady carry.new shape.channels shape.first shape.last shape.chunk }
{
    let band = Node {
        lo: 0,
        hi: shape.channels,
        first_row: shape.first,
        last_row: shape.last,
        tail: 0,
    };
    let start = carry.fed() as usize;
    let mut wrong = Ok(0);
    carry.begin(samples, count);
    for d in shape.first..shape.last + 1 {
        carry.make_row(samples);
        wrong = both(wrong, direct.wrong(alloc, band, d, start, carry.made()));
    }
    carry.finish();
    both(wrong, Ok(u64::from(carry.has_tables())))
}

// The sum of two counts.
fn both(one: Result<u64, Memory>, other: Result<u64, Memory>) -> Result<u64, Memory> {
    Ok(one?.wrapping_add(other?))
}

/// A row of a node, or an empty one if it can't be read.
pub fn table_of(carry: &Carry, k: usize, d: u32) -> &[u32] {
    if !carry.has_tables() || k >= carry.plan().nodes() {
        return &[];
    }
    let node = carry.plan().node(k);
    if d < node.first_row || d > node.last_row {
        return &[];
    }
    carry.table(k, d)
}

// The last eight bits of each value: the whole of a sample.
fn bytes_of(alloc: Global, rows: &[u32]) -> Result<Vec<u8>, Memory>
    ensures { IfOk result (λ bytes. length bytes.items ≡ length rows.now) }
{
    let mut bytes = Vec::new(alloc);
    for place in 0..rows.len() {
        bytes.push((rows[place] % 256) as u8)?;
    }
    Ok(bytes)
}

// Edges in kHz that fall by 250 kHz each, down to 15 MHz.
fn edges_of(alloc: Global, channels: u32) -> Result<Vec<u32>, Memory>
    requires some { 2 ≤ channels }
    requires most { channels ≤ 4096 }
    ensures { IfOk result (λ edges. AreEdges channels edges.items) }
{
    let mut edges = Vec::new(alloc);
    for c in 0..channels + 1 {
        edges.push(15_000 + (channels - c) * 250)?;
    }
    Ok(edges)
}
