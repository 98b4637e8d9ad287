//! With which table the next log begins, as contracts of a function that does nothing.
ghost use Rattle.smi_live_carried.specs.Recalling.{BeginsWithNumbers, RecallsEach, RecallsOneMore};

/// Names that are recalled one after another, none of them twice, are what the next log begins with, in their order:
/// the names and the last numbers with which the log before ended. This does nothing when called.
pub fn laws_of_recalling()
    ensures more { RecallsOneMore }
    ensures each { RecallsEach }
    ensures numbers { BeginsWithNumbers }
{}
