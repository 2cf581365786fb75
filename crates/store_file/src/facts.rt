// What is known of the series of a store.

ghost use Rattle.std.specs.Prelude.{◌≡◌, ◌≤◌, ◌^◌, IfOk};
ghost use Rattle.expr.specs.Facts.{facts_of};
ghost use Rattle.segment.specs.Measure.{greatest_reading};
ghost use Rattle.segment.specs.Tree.{all_readings};
ghost use Rattle.seg_tree.specs.Trees.{IsTreeOf, value_of};
ghost use Rattle.store_file.specs.Facts.{AreFacts, facts_in};
ghost use Rattle.store_file.specs.Stored.{store_value};

use crate::Store;
use crate::store::entry_at;
use expr::Fact;
use num_text::Memory;
use seg_tree::{Arena, ArenaNodes, Tree};
use segment::Nodes;

impl Store {
    /// Name, length and greatest absolute reading of each series, in order.
    pub fn facts(&self) -> Result<Vec<Fact>, Memory>
        ensures facts { IfOk result (λ facts. facts_of facts.items ≡ facts_in (store_value self.now)) }
        ensures limits { IfOk result (λ facts. AreFacts (facts_of facts.items)) }
    {
        let mut facts = Vec::new(*self.series.allocator());
        for i in 0..self.series.len() {
            let (name, stored) = entry_at(&self.series, i);
            let fact = Fact {
                name,
                n: stored.tree.n,
                d: greatest_in(&self.arena, stored.tree),
            };
            facts.push(fact)?;
        }
        Ok(facts)
    }
}

/// The greatest absolute reading of a tree, 0 where it has none.
fn greatest_in(arena: &Arena, tree: Tree) -> u64
    requires { IsTreeOf arena.now.nodes tree }
    ensures { result ≡ greatest_reading (all_readings (value_of arena.now.nodes tree)) }
{
    let trees = [tree];
    let mut nodes = ArenaNodes::new(arena, &trees);
    match nodes.root(&mut (), 0) {
        Ok(Some((_, root))) => root.d,
        Ok(None) => 0,
        Err(_) => unreachable!(),
    }
}
