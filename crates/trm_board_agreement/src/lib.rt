// Demand 3 and request A1 of the board: definitions and proofs only, no function.
// Read specs/Demand.antt first; it uses the definitions of the board and the contracts of its exported calls, and no code.
// Request A1: "a line joined to itself must hand every accepted byte ..".
#![tactic(auto)]
