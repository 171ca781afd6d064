// A law of the lists of a shard, as a function that does nothing.
ghost use Rattle.shard_search.specs.Laws.{ShardsAreListed};

// Laws: they do nothing when they run, and the proof uses what they ensure.
use fold_search::delays_are_part;
use search_model::{late_path_sums, parts_need_no_more};

/// Law: what is found in the rows of a shard's delays is the shard's part of the candidate list, as far as it is
/// sought.
pub fn shards_are_listed()
    ensures { ShardsAreListed }
{
    late_path_sums();
    delays_are_part();
    parts_need_no_more();
}
