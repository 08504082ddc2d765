// What is written is read back as what it was.
ghost use Rattle.texts.specs.Laws.{CommandBack, HeightBack, NumberBack, RowBack};

// A number that was printed reads back as it.
pub fn number_back()
    ensures { NumberBack }
{}

// So does one of a row, which may be below 0.
pub fn height_back()
    ensures { HeightBack }
{}

// A row that was printed reads back as its numbers.
pub fn row_back()
    ensures { RowBack }
{}

// The text of a command reads back as that command.
pub fn command_back()
    ensures { CommandBack }
{}
