// The open elements of a walk. In a file of its own: the type stands below what the contracts of its methods cite.

ghost use Rattle.std.specs.Prelude.{◌≡◌, ℕ, ◌≤◌, ◌<◌, length, get_or};

// What is open at a place of a list, the oldest first: the names, and the states behind them, `depth` of each; and the state here.
#[derive(Drop)]
pub struct Nesting {
    pub names: [u8; 64],
    pub behind: [u8; 64],
    pub depth: usize,
    pub here: u8,
    ghost names_long: { length names ≡ 64 },
    ghost behind_long: { length behind ≡ 64 },
    ghost in_states: { here < 48 },
    ghost deep: { depth ≤ 64 },
    ghost all_states: { (j : ℕ) → j < depth → get_or behind j 0 < 48 },
}
