// What holds of the layout of sheets: the theorem is a function's contract.
ghost use Rattle.sheets.specs.Theorems.{DecodeUndoesEncode};

// Reading the sheet of a seat and its halves gives back the seat and the halves.
pub fn decode_undoes_encode()
    ensures { DecodeUndoesEncode }
{}
