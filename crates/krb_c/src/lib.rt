//! Keytabs and credential caches for programs in C: the functions of the static library, over the calls of krb_keytab,
//! krb_ccache and krb_audit. c/krbfile.h says what each does.
#![tactic(auto)]

mod cache;
mod handle;
mod heap;
mod held;
mod key;
mod keytab;
mod parts;
mod phrase;
mod status;
mod text;
mod walked;
