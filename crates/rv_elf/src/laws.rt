//! Laws of loading and writing together. The function's contract is the law; its body is empty.
ghost use Rattle.rv_elf.specs.Laws.{LoadsAgain};

/// The file of every image loads as the image.
pub fn loads_again()
    ensures { LoadsAgain }
{}
