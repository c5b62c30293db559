// What is so of all tables.
ghost use Rattle.tables.specs.Sound.{TablesAreSound};

// Their state has what every kernel keeps, and its running task is the right one.
pub fn tables_are_sound() -> u8
    ensures { TablesAreSound }
{
    0
}
