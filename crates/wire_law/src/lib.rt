// The laws of the file formats, each as the contract of a function that does nothing else.
#![tactic(auto)]

ghost use Rattle.wire_law.specs.Examples.{ExamplesStand};
ghost use Rattle.wire_law.specs.Laws.{CoverFits, CoverRead, CoverSpelt, ModelFits, ModelRead, ModelSpelt, TrailFits, TrailRead, TrailSpelt};

// An accepted model file has just the bytes that its cells are written with.
pub fn model_spelt()
    ensures { ModelSpelt }
{}

// An accepted trail file has just the bytes that its steps are written with.
pub fn trail_spelt()
    ensures { TrailSpelt }
{}

// An accepted cover file has just the bytes that its entries are written with.
pub fn cover_spelt()
    ensures { CoverSpelt }
{}

// What an accepted model file is read as fits a file: its numbers are in their ranges, and unused slots are blank.
pub fn model_fits()
    ensures { ModelFits }
{}

// What an accepted trail file is read as fits a file.
pub fn trail_fits()
    ensures { TrailFits }
{}

// What an accepted cover file is read as fits a file.
pub fn cover_fits()
    ensures { CoverFits }
{}

// Every model that fits a file is read back from the bytes that it is written with.
pub fn model_read()
    ensures { ModelRead }
{}

// Every trail that fits a file is read back from the bytes that it is written with.
pub fn trail_read()
    ensures { TrailRead }
{}

// Every cover that fits a file is read back from the bytes that it is written with.
pub fn cover_read()
    ensures { CoverRead }
{}

// The examples are read as they are shown.
pub fn examples_stand()
    ensures { ExamplesStand }
{}
