// A short history of calls on the 184-byte image and an a.out, computed by the checker from the definitions alone. It shows that the
// premises of the claim can be met, and what its words mean on bytes that a reader can follow. This crate has no code.

#![tactic(auto)]
