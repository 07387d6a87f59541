// What is true of extended squares of any code: theorems alone, the contract of a function that has nothing to do.
ghost use Rattle.extension.specs.Laws.{CodedIsExtension, SquareValues};

// A worked square, and the way back from lines that are codewords to the data.
pub fn extension_stands()
    ensures values { SquareValues }
    ensures coded { CodedIsExtension }
{}
