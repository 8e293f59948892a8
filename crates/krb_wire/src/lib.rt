//! Principal names, counted data and numbers of Kerberos files, read from bytes and written in place without
//! allocating, and names as text.
#![tactic(auto)]

mod atom;
mod components;
pub mod controls;
mod counted;
mod format;
mod limits;
mod memory;
mod name;
mod name_fault;
mod numbers;
mod parse;
mod pen;
mod principal;
mod quote;
mod same;
mod spelling;
mod text;
mod view;

pub use components::Components;
pub use counted::{read_data16, read_data32, split_data16, split_data32, tail};
pub use format::{KtFormat, Lengths, Order};
pub use limits::{Limits, USUAL_LIMIT};
pub use memory::NoMemory;
pub use name::Name;
pub use name_fault::NameFault;
pub use numbers::{read_u16, read_u32, split_u8, split_u16, split_u32};
pub use parse::parse_name;
pub use pen::Pen;
pub use principal::{Principal, copy_name};
pub use same::same_name;
pub use spelling::cache::{cc_principal_len, put_cc_principal};
pub use spelling::keytab::{kt_principal_len, put_kt_principal};
pub use text::{all_or_nothing, texts_name_their_names, write_name};
pub use view::{
    PrincipalView, read_cc_principal, read_kt_principal, split_cc_principal, split_kt_principal,
};
