//! Room for one more block in each open instance of a package, made before any block is taken.

ghost use Rattle.std.specs.Prelude.{◌≡◌, ◌≤◌, map, count_by, OnOk, OnErr, IfErr, vec_len};
ghost use Rattle.of_ihandles.specs.Instances.{is_open};
ghost use Rattle.of_ihandles.specs.Rooms.{changed, filled, fills, roomless, roomy};

use crate::blocks::{Block, Blocks};
use crate::instance_fault::InstanceFault;
use crate::instances::Instance;
use of_nodes::Phandle;

/// Whether it is a live instance of a package.
fn is_open(entry: &Option<Instance>, package: Phandle) -> bool
    ensures { result ≡ is_open «package» entry.now }
{
    match entry {
        Some(instance) => instance.package.0.0 == package.0.0,
        None => false,
    }
}

/// How many live instances a package has.
pub(crate) fn open_count(made: &[Option<Instance>], package: Phandle) -> usize
    ensures { result ≡ count_by (is_open «package») made.now }
{
    made.iter().filter(|entry| is_open(entry, package)).count()
}

/// Makes room in one, if it is a live instance of the package.
///
/// NoMemory; then nothing changes.
fn add_room(entry: &mut Option<Instance>, package: Phandle) -> Result<(), InstanceFault>
    ensures made { OnOk result (entry.new ≡ roomy «package» entry.old) }
    ensures refused { OnErr result (entry.new ≡ entry.old) }
    ensures memory { IfErr result (λ e. e ≡ InstanceFault.NoMemory) }
{
    let Some(instance) = entry else {
        return Ok(());
    };
    if instance.package.0.0 != package.0.0 {
        return Ok(());
    }
    instance.push_block(Block::nowhere())
}

/// Takes the room back from one, if it is a live instance of the package.
fn drop_room(entry: &mut Option<Instance>, package: Phandle)
    ensures { entry.new ≡ roomless «package» entry.old }
{
    let Some(instance) = entry else {
        return;
    };
    if instance.package.0.0 != package.0.0 {
        return;
    }
    instance.pop_block();
}

/// Puts a block into the room of one.
fn fill_room(entry: &mut Option<Instance>, block: Block)
    ensures { entry.new ≡ filled entry.old block }
{
    let Some(instance) = entry else {
        return;
    };
    instance.set_last_block(block);
}

/// Takes the room back from the first `count`.
#[tactic(auto, using(crate::proofs::RoomLoops::dropping))]
pub(crate) fn drop_rooms(made: &mut Vec<Option<Instance>>, count: usize, package: Phandle)
    requires { count ≤ vec_len made.old }
    ensures { made.new.items ≡ changed (roomless «package») made.old.items count }
{
    for i in 0..count {
        drop_room(&mut made[i], package);
    }
}

/// Makes room in all.
///
/// NoMemory; then nothing changes.
#[tactic(auto, using(crate::proofs::RoomLoops::adding))]
pub(crate) fn add_rooms(
    made: &mut Vec<Option<Instance>>,
    package: Phandle,
) -> Result<(), InstanceFault>
    ensures made { OnOk result (made.new.items ≡ map (roomy «package») made.old.items) }
    ensures refused { OnErr result (made.new.items ≡ made.old.items) }
    ensures memory { IfErr result (λ e. e ≡ InstanceFault.NoMemory) }
{
    for i in 0..made.len() {
        match add_room(&mut made[i], package) {
            Ok(()) => {}
            Err(fault) => {
                drop_rooms(made, i, package);
                return Err(fault);
            }
        }
    }
    Ok(())
}

/// Puts blocks into the rooms, the oldest instance's first.
#[tactic(auto, using(crate::proofs::RoomLoops::filling))]
pub(crate) fn fill_rooms(made: &mut Vec<Option<Instance>>, package: Phandle, blocks: &Blocks)
    ensures { made.new.items ≡ fills «package» made.old.items blocks.now }
{
    let mut next = 0;
    for i in 0..made.len() {
        if !is_open(&made[i], package) {
            continue;
        }
        match blocks.at(next) {
            Some(block) => {
                fill_room(&mut made[i], block);
                next += 1;
            }
            None => return,
        }
    }
}
