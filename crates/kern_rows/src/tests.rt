mod calls;
mod roots;
mod three;
