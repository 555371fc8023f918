//! What follows of a file that is stored.
ghost use Rattle.std.specs.List.{AllByRecursion};
ghost use Rattle.std.specs.Prelude.{◌≡◌, ◌<◌, ◌≤◌, ◌^◌, ◌∷◌, [], List, length, ℕ};
ghost use Rattle.hs_asking.specs.Seats.{IsSane};
ghost use Rattle.hs_asking.specs.Staying.{NeverDrops};
ghost use Rattle.hs_limits.specs.declared.address.Address.{Address};
ghost use Rattle.hs_limits.specs.declared.limits.Limits.{Limits};
ghost use Rattle.hs_model.specs.Run.{Event, IsLegal, run};
ghost use Rattle.hs_model.specs.Store.{Store};
ghost use Rattle.hs_tree.specs.Fetching.{IsFileOf, IsNoFile};
ghost use Rattle.hs_tree.specs.Levels.{level_at, levels_of, levels_to};
ghost use Rattle.hs_tree.specs.Trees.{IsStored, IsTreeAt, height, node, stored_cut};

/// A stored file stays so along legal events of which none drops its key, deletions among them (`stays`).
/// Its tree stands at its root, place by place (`stands`).
pub fn a_stored_file_stays()
    ensures stays { (name : List ℕ → Address) (limits : Limits) (s : Store) (events : List Event) (key file : List ℕ) →
        IsSane s → IsLegal limits s events → AllByRecursion (NeverDrops key) events →
        IsStored name s key file → IsStored name (run limits s events) key file }
    ensures stands { (name : List ℕ → Address) (s : Store) (key file : List ℕ) (stored : IsStored name s key file) →
        IsTreeAt s stored.root.address file }
{}

/// The blocks at an address and below it are the tree of at most one file of fewer than 2^64 bytes.
pub fn a_tree_is_of_one_file()
    ensures { (s : Store) (a : Address) (f g : List ℕ) → length f < 2 ^ 64 → length g < 2 ^ 64 →
        IsTreeAt s a f → IsTreeAt s a g → f ≡ g }
{}

/// What is stored under a key is what a fetch finds there (`found`), and a key has at most one file (`only`);
/// so a fetch never finds that no file is there (`never`).
pub fn a_stored_file_is_fetched()
    ensures found { (name : List ℕ → Address) (s : Store) (key file : List ℕ) → length file ≤ 67108864 →
        IsStored name s key file → IsFileOf s key file }
    ensures only { (s : Store) (key f g : List ℕ) → IsFileOf s key f → IsFileOf s key g → f ≡ g }
    ensures never { (name : List ℕ → Address) (s : Store) (key file : List ℕ) (a : Address) →
        length file ≤ 67108864 → IsStored name s key file → IsNoFile s key a → ⊥ }
{}

/// The levels of a file from its pieces up are those of its tree, height by height (`levels`), and the last
/// one is its top alone (`top`).
pub fn a_tree_is_its_levels()
    ensures levels { (name : List ℕ → Address) (file : List ℕ) → 0 < length file → length file ≤ 268435456 →
        levels_of stored_cut name file ≡ levels_to name (height stored_cut (length file)) file }
    ensures top { (name : List ℕ → Address) (file : List ℕ) → 0 < length file → length file ≤ 268435456 →
        level_at name (height stored_cut (length file)) file
        ≡ record { block = node stored_cut name (height stored_cut (length file)) file; below = length file } ∷ [] }
{}
