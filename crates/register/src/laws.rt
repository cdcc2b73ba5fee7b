// What is true of every register.
ghost use Rattle.register.specs.Laws.{MoversMoveWhatTheyName};

// Each mover that is done changes the shares that it names, and no share is made or lost on the way.
pub fn movers_move_what_they_name()
    ensures { MoversMoveWhatTheyName }
{}
