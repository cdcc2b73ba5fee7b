// What is true of tables: each law is the contract of a function.
ghost use Rattle.book.specs.Places.{PlacesFree};
ghost use Rattle.book.specs.Table.{TablesSound, TablesAlike};

// Places that hold the same orders stand for one book.
pub fn places_free()
    ensures { PlacesFree }
{}

// Two tables that hold the same orders have the same book.
pub fn tables_alike()
    ensures { TablesAlike }
{}

// A table's book is sound.
pub fn tables_sound()
    ensures { TablesSound }
{}
