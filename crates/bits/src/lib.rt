//! The binary digits of a number: its bits, and the place of the highest.
//! There is no code here: specs/Bits has the definitions, and proofs/Tops what holds of the highest one bit.
#![tactic(auto)]
