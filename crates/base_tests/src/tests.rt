//! Pages, stores and fault texts; changes of pages; boards; devices over memory, devices that are slow or fail, and
//! devices over files, also as several threads read them, held stores.

mod again;
mod boards;
mod files;
mod held_stores;
mod page_changes;
mod shared;
mod store_lsns;
mod stores;
mod transfers;
