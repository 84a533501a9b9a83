// Salvage: the definitions of what is kept of a spoiled file stand in specs/, their laws in proofs/; here is the table in
// which the calls tell what becomes of its boxes.
#![tactic(auto)]

pub mod table;
