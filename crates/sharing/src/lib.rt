//! That models, compiled bodies and runs may be shared by threads, and sent between them: lemmas alone. The kit finds such a
//! fact for most types; those that contain themselves (expressions, conditions, statements), and what is made of them, are
//! proved here by hand. Crates that start threads, and those whose types threads share, cite them.
#![tactic(auto)]
