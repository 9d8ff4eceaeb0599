#![tactic(auto)]

// The paper's cases as one proved table: see specs/Table.antt, and proofs/CasesHold.antt for its one theorem. There is no code here.
