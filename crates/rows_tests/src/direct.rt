// Streams of samples, and sums over them cell by cell.
ghost use Rattle.std.specs.Prelude.{◌*◌};

use psr_base::Memory;
use std::alloc::Global;
use subband_plan::Node;

/// Samples: `spectra` of each channel, channel by channel from the highest frequency down.
#[derive(Drop)]
pub struct Stream {
    pub spectra: usize,
    pub samples: Vec<u32>,
}

impl Stream {
    /// A stream of samples that look random.
    pub fn new(alloc: Global, channels: usize, spectra: usize) -> Result<Stream, Memory> {
        let mut samples = Vec::new(alloc);
        let mut state: u32 = 13;
        for _ in 0..channels.wrapping_mul(spectra) {
            state = state.wrapping_mul(1_103_515_245).wrapping_add(12_345);
            samples.push(state >> 24)?;
        }
        Ok(Stream { spectra, samples })
    }

    /// The sample of a channel in spectrum `t`; 0 before the first and after the last spectrum.
    pub fn at(&self, channel: usize, t: usize) -> u32 {
        if t >= self.spectra {
            return 0;
        }
        let place = channel.wrapping_mul(self.spectra).wrapping_add(t);
        self.samples.get(place).copied().unwrap_or(0)
    }

    /// The sum over a node along its path of delay `d` that ends at spectrum `u`; `delays` are those at its edges.
    pub fn sum(&self, node: Node, delays: &[u32], d: u32, u: usize) -> u32 {
        let mut total: u32 = 0;
        let pairs = delays.iter().zip(delays.iter().skip(1));
        for (c, (from, to)) in pairs.enumerate() {
            let channel = (node.lo as usize).wrapping_add(c);
            for e in *from..to.wrapping_add(1).max(*from) {
                let t = u.wrapping_add(e as usize).wrapping_sub(d as usize);
                total = total.wrapping_add(self.at(channel, t));
            }
        }
        total
    }
}

/// The delays at the edges of a node on its path of delay `d`.
pub fn delays_of(alloc: Global, edges: &[u32], node: Node, d: u32) -> Result<Vec<u32>, Memory> {
    let mut delays = Vec::new(alloc);
    for k in node.lo as usize..(node.hi as usize + 1).max(node.lo as usize) {
        delays.push(entry(edges, node, d, k))?;
    }
    Ok(delays)
}

/// The part above the edge `mid` of a delay between the edges `lo` and `hi`: by the squares of the wavelengths,
/// rounded.
fn split(edges: &[u32], lo: usize, mid: usize, hi: usize, d: u32) -> u32 {
    let square = |k: usize| {
        let edge = u128::from(edges.get(k).copied().unwrap_or(0));
        edge.wrapping_mul(edge)
    };
    let (high, middle, low) = (square(lo), square(mid), square(hi));
    let part = high.wrapping_sub(middle).wrapping_mul(low);
    let whole = high.wrapping_sub(low).wrapping_mul(middle);
    let twice = part.wrapping_mul(2).wrapping_mul(u128::from(d));
    let share = twice.wrapping_add(whole).checked_div(whole.wrapping_mul(2));
    u32::try_from(share.unwrap_or(0)).unwrap_or(0)
}

/// The delay at edge `k` on the path of delay `d` over a node. It is 0 at the node's first edge. The node is halved
/// down to the edge.
fn entry(edges: &[u32], node: Node, d: u32, k: usize) -> u32 {
    let (mut lo, mut hi) = (node.lo as usize, node.hi as usize);
    let (mut start, mut d) = (0_u32, d);
    for _ in 0..12 {
        if hi.saturating_sub(lo) < 2 {
            break;
        }
        let mid = lo + (hi - lo) / 2;
        let upper = split(edges, lo, mid, hi, d);
        if k <= mid {
            hi = mid;
            d = upper;
        } else {
            lo = mid;
            start = start.wrapping_add(upper);
            d = d.wrapping_sub(upper);
        }
    }
    if k >= hi {
        start.wrapping_add(d)
    } else {
        start
    }
}
