// Demand 3 and the claims around it: definitions and proofs only, no function.
// Read specs/Demand.antt first; it uses the definitions of the two machines and the contracts of the calls, and no code.
// Paper: "The plain machine of demand 3 ..", "Demand 3 is one statement on the whole list".
#![tactic(auto)]
