// A tree read from its items.
ghost use Rattle.std.specs.Prelude.{◌≡◌, ◌≢◌, ℕ, List, [], ◌∷◌, ◌++◌, IfSome, IsSomeAnd, MatchOption, MatchResult};
ghost use Rattle.plain_term.specs.View.{view};
ghost use Rattle.plain_term.specs.Tree as plain;
ghost use Rattle.plain_term.specs.Tree.Tree.{Cons as plain_cons};
ghost use Rattle.plain_term.specs.declared.item.Item.{Item};
ghost use Rattle.plain_term.specs.declared.item.Item.TheVariants.{Byte, Cons, Tuple, Bin};
ghost use Rattle.plain_term.specs.Written.{Explains, HasNoTerm, IsValueOf, ReadsTerm, SpellsTree};

use crate::item::Item;
use crate::tree::{Tree, TreeFault};
use sqlite_items::{Boxed, Items};
use std::alloc::Global;

// The bytes of the longest binary that is no shared one.
const HEAP_BINARY: u64 = 64;

impl Tree {
    /// The tree of a term in prefix form.
    ///
    /// `Items` comes exactly where the items are not one whole term of integers of magnitude below
    /// 2^127, atoms, pids, nil, lists, tuples and binaries of at most 64 bytes. `Memory` comes only
    /// where they are one.
    pub fn of_items(alloc: Global, items: &[Item]) -> Result<Tree, TreeFault>
        ensures { MatchResult result (λ t. SpellsTree items.now (view t)) (λ e. Explains items.now e) }
    {
        match read_term(alloc, items) {
            Some((tree, rest)) => {
                if rest.is_empty() {
                    tree.ok_or(TreeFault::Memory)
                } else {
                    Err(TreeFault::Items)
                }
            }
            None => Err(TreeFault::Items),
        }
    }
}

// The term at the front, and the items after it; none where no term stands there. Where memory is
// wanting the term is not built, and reading goes on.
#[cycle(reading)]
fn read_term(alloc: Global, items: &[Item]) -> Option<(Option<Tree>, &[Item])>
    ensures { MatchOption result (HasNoTerm items.now) (λ p. ReadsTerm items.now p.0 p.1.now) }
{
    let (first, rest) = first(items)?;
    match first {
        Item::Int(i) => {
            if i == i128::MIN {
                None
            } else {
                Some((Some(Tree::Int(i)), rest))
            }
        }
        Item::Atom(k) => Some((Some(Tree::Atom(k)), rest)),
        Item::Pid(n) => Some((Some(Tree::Pid(n)), rest)),
        Item::Nil => Some((Some(Tree::Nil), rest)),
        Item::Cons => read_cons(alloc, rest),
        Item::Tuple(n) => read_tuple(alloc, n, rest),
        Item::Bin(n) => read_binary(alloc, n, rest),
        Item::Map(_) | Item::Byte(_) | Item::Held(_) => None,
    }
}

// A list place of the next two terms, and the items after them.
#[cycle(reading)]
fn read_cons(alloc: Global, items: &[Item]) -> Option<(Option<Tree>, &[Item])>
    ensures { MatchOption result (HasNoTerm (Cons ∷ items.now)) (λ p. ReadsTerm (Cons ∷ items.now) p.0 p.1.now) }
{
    let (head, rest) = read_term(alloc, items)?;
    let head = boxed(alloc, head);
    let (tail, rest) = read_term(alloc, rest)?;
    Some((cons(head, boxed(alloc, tail)), rest))
}

// A tuple of the next `n` terms, and the items after them.
#[cycle(reading)]
fn read_tuple(alloc: Global, n: u64, items: &[Item]) -> Option<(Option<Tree>, &[Item])>
    ensures { MatchOption result (HasNoTerm (Tuple n ∷ items.now)) (λ p. ReadsTerm (Tuple n ∷ items.now) p.0 p.1.now) }
{
    let mut parts = Some(Items::new(alloc));
    let mut rest = items;
    for _i in 0..n {
        let (part, after) = read_term(alloc, rest)?;
        parts = pushed(parts, part);
        rest = after;
    }
    Some((parts.map(Tree::Tuple), rest))
}

// A binary of the next `n` bytes, and the items after them; none where these are too many for one that is not shared.
fn read_binary(alloc: Global, n: u64, items: &[Item]) -> Option<(Option<Tree>, &[Item])>
    ensures { MatchOption result (HasNoTerm (Bin n ∷ items.now)) (λ p. ReadsTerm (Bin n ∷ items.now) p.0 p.1.now) }
{
    if n > HEAP_BINARY {
        return None;
    }
    let mut bytes = Some(Items::new(alloc));
    let mut rest = items;
    for _i in 0..n {
        let (byte, after) = first_byte(rest)?;
        bytes = pushed(bytes, Some(byte));
        rest = after;
    }
    Some((bytes.map(Tree::Bin), rest))
}

// The first item and the others.
fn first(items: &[Item]) -> Option<(Item, &[Item])>
    ensures { MatchOption result (items.now ≡ []) (λ p. items.now ≡ p.0 ∷ p.1.now) }
{
    match items.split_first() {
        Some((first, rest)) => Some((*first, rest)),
        None => None,
    }
}

// The byte at the front and the items after it.
fn first_byte(items: &[Item]) -> Option<(u8, &[Item])>
    ensures { MatchOption result ((b : ℕ) (rest : List Item) → items.now ≢ Byte b ∷ rest) (λ p. items.now ≡ Byte p.0 ∷ p.1.now) }
{
    let (item, rest) = first(items)?;
    match item {
        Item::Byte(b) => Some((b, rest)),
        _ => None,
    }
}

// A term in a box, where it is built and memory is left for it.
fn boxed(alloc: Global, tree: Option<Tree>) -> Option<Boxed<Tree>>
    ensures { (t : plain.Tree) → IsValueOf tree t → IsValueOf result t }
{
    Boxed::new(alloc, tree?).ok()
}

// A list place of two terms that are built.
fn cons(head: Option<Boxed<Tree>>, tail: Option<Boxed<Tree>>) -> Option<Tree>
    ensures { (h t : plain.Tree) → IsValueOf head h → IsValueOf tail t → IsValueOf result (plain_cons h t) }
{
    let (head, tail) = head.zip(tail)?;
    Some(Tree::Cons(head, tail))
}

// One item more, where all are there and memory is left for it.
fn pushed<T: Drop>(items: Option<Items<T>>, item: Option<T>) -> Option<Items<T>>
    ensures { IfSome result (λ more. IsSomeAnd items (λ xs. IsSomeAnd item (λ x. more ≡ xs ++ x ∷ []))) }
{
    let (mut items, item) = items.zip(item)?;
    items.push(item).ok()?;
    Some(items)
}
