//! Laws of upgrade lists.

ghost use Rattle.std.specs.Prelude.{◌≡◌, ◌≢◌, ◌+◌, List, length, map, Ok};
ghost use Rattle.beam_machine.specs.declared.event.Event.TheVariants as event;
ghost use Rattle.beam_machine.specs.declared.event.UpgradeMode.{UpgradeMode};
ghost use Rattle.beam_machine.specs.declared.event.UpgradeMode.TheVariants.{Hard};
ghost use Rattle.beam_machine.specs.declared.event.Reply.{Reply};
ghost use Rattle.beam_model.specs.Listing.{Listing};
ghost use Rattle.beam_machine.specs.State.{State};
ghost use Rattle.beam_machine.specs.Next.{end_olds, next};
ghost use Rattle.beam_machine.specs.Run.{run};
ghost use Rattle.beam_laws.specs.Upgrades.{loaded_each};

/// An upgrade list that isn't refused first ends the processes that linger in removed code, in the order of their pids over all its
/// modules, and then loads its listings, one after another. So they get the next numbers, in their order. In modes other than `Hard`
/// no process ends, and the upgrade is exactly these loads.
pub fn upgrade_is_its_loads()
    ensures loads { (s : State) (mode : UpgradeMode) (ls : List Listing) (r : Reply) → (next s (event.AtomicLoad mode ls)).answer ≡ Ok r
        → (next s (event.AtomicLoad mode ls)).state ≡ (run (end_olds s ls) (map (λ l. event.Load l) ls)).state }
    ensures gentle { (s : State) (mode : UpgradeMode) (ls : List Listing) (r : Reply) → mode ≢ Hard → (next s (event.AtomicLoad mode ls)).answer ≡ Ok r
        → (next s (event.AtomicLoad mode ls)).state ≡ (run s (map (λ l. event.Load l) ls)).state }
    ensures code { (s : State) (mode : UpgradeMode) (ls : List Listing) (r : Reply) → (next s (event.AtomicLoad mode ls)).answer ≡ Ok r
        → (next s (event.AtomicLoad mode ls)).state.code ≡ loaded_each s.code s.instances ls }
    ensures count { (s : State) (mode : UpgradeMode) (ls : List Listing) (r : Reply) → (next s (event.AtomicLoad mode ls)).answer ≡ Ok r
        → (next s (event.AtomicLoad mode ls)).state.instances ≡ s.instances + length ls }
{}

/// An upgrade list ends processes in mode `Hard` alone.
pub fn gentle_upgrade_ends_none()
    ensures { (s : State) (mode : UpgradeMode) (ls : List Listing) → mode ≢ Hard → (next s (event.AtomicLoad mode ls)).state.processes ≡ s.processes }
{}
