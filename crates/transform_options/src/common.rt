pub mod helper_loader;
