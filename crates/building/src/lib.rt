// The layer that emission is known by: `backend/function_state.rs` over lent areas, and what functions need of the pool, the errors and the context
// locals. Every routine is total: a full area sets the mark `full` to its number, and with the mark set nothing changes.
#![tactic(auto)]

pub mod context;
pub mod function_state;
pub mod pool;
pub mod scopes;
pub mod taking;
