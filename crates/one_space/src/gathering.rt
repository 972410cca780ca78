// The words of the registers that an environment names.
ghost use Rattle.std.specs.Prelude.{◌≡◌, ℕ, ◌≤◌, length, map, take, slice_index};
ghost use Rattle.one_space.specs.Gathered.{held_word};

use plain_term::Item;

/// Writes the words of an environment's registers at the front of the row.
pub fn gather(row: &mut [u64], regs: &[u64], env: &[Item])
    requires { length env.now ≤ length row.old }
    ensures words { take (length env.now) row.new ≡ map (λ x. held_word regs.now x) env.now }
    ensures len { length row.new ≡ length row.old }
{
    for i in 0..env.len() {
        row[i] = word_of(regs, &env[i]);
    }
}

// The word of the register that the item names.
fn word_of(regs: &[u64], item: &Item) -> u64
    ensures { result ≡ held_word regs.now item.now }
{
    match item {
        Item::Held(r) => regs.get(*r as usize).copied().unwrap_or(0),
        _ => 0,
    }
}
