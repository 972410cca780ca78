// Trees of written terms, and their measures.
use plain_term::{Item, Tree, TreeFault, depth, flat, nodes};
use std::alloc::Global;

// Items, and the nodes, the depth and the flat size of their tree; none where they are no whole term.
struct Row(&'static [Item], Option<[u64; 3]>);

const ROWS: [Row; 9] = [
    Row(&[], None),
    Row(&[Item::Cons, Item::Int(1)], None),
    Row(&[Item::Nil, Item::Nil], None),
    Row(&[Item::Held(0)], None),
    Row(
        &[Item::Int(-170_141_183_460_469_231_731_687_303_715_884_105_728)],
        None,
    ),
    Row(&[Item::Tuple(0)], Some([1, 1, 1])),
    Row(&[Item::Int(-576_460_752_303_423_489)], Some([1, 0, 2])),
    Row(
        &[Item::Bin(2), Item::Byte(1), Item::Byte(2)],
        Some([2, 0, 3]),
    ),
    Row(
        &[
            Item::Tuple(2),
            Item::Int(1),
            Item::Cons,
            Item::Int(2),
            Item::Nil,
        ],
        Some([5, 2, 5]),
    ),
];

fn measures_as(alloc: Global, items: &[Item], measures: &Option<[u64; 3]>) -> bool {
    match &Tree::of_items(alloc, items) {
        Ok(tree) => *measures == Some([nodes(tree), depth(tree), flat(tree)]),
        Err(fault) => matches!(fault, TreeFault::Items) && measures.is_none(),
    }
}

#[test]
fn written_terms_have_their_measures(rt: HostRuntime) {
    for row in &ROWS {
        assert!(rt; measures_as(rt.alloc(), row.0, &row.1));
    }
}
