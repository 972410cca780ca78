// The table of sizes, and the next one that is large enough.
ghost use Rattle.std.specs.Prelude.{◌≡◌, ℕ, ◌+◌, ◌*◌, ◌<◌, ◌≤◌, ◌↔◌, IfSome, IsSome};
ghost use Rattle.heap_sizes.specs.Sizes.{IsNextSize};

/// The words of each size, rising. The shape of the sequence is that of GarbageCollection.md and
/// The BEAM Book; each entry is this project's own.
const SIZES: [u64; 39] = [
    12, 38, 51, 90, 142, 233, 376, 610, 987, 1598, 2586, 4185, 6772, 10958, 17731, 28690, 46422,
    75113, 121536, 196650, 318187, 514838, 833026, 999631, 1199557, 1439468, 1727361, 2072833,
    2487399, 2984878, 3581853, 4298223, 5157867, 6189440, 7427328, 8912793, 10695351, 12834421,
    15401305,
];

/// The least size of at least `n` words. `None` where every size is smaller.
pub fn next_size(n: u64) -> Option<u64>
    ensures next { IfSome result (λ size. IsNextSize n size) }
    ensures none { IsSome result ↔ (n ≤ 15401305) }
    ensures bounds { IfSome result (λ size. (12 ≤ size) × (size ≤ 15401305)) }
    ensures double { IfSome result (λ size. size ≤ 2 * n + 12) }
{
    for size in &SIZES {
        if n <= *size {
            return Some(*size);
        }
    }
    None
}
