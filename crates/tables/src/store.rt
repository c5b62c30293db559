// What a kernel holds of tasks and packets.
ghost use Rattle.tables.specs.Sound.{AreSound};

use packets::table::PacketTable;
use tasks::table::TaskTable;

#[derive(Clone, Copy)]
pub struct Tables {
    pub(crate) packets: PacketTable,
    pub(crate) tasks: TaskTable,
    // What every kernel keeps, and that the task that runs is the runnable one of greatest priority.
    pub ghost sound: { ∥ AreSound tasks packets ∥₁ },
}
