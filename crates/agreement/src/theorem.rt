// The theorem, on the contract of a function, so that the check asks for its proof.
ghost use Rattle.agreement.specs.Agreement.{MachinesAgree};

// Of every program that exists and every number of rounds, for every kind of value, the failing leaves of the sequential
// program and of the thread machine are one to one, in the same order and equally many, and so are the full ones.
pub fn machines_agree()
    ensures { MachinesAgree }
{}
